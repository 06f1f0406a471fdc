//! Reading out of the sponge.

ghost use Rattle.sponge.specs.Modes.{squeezed};
ghost use Rattle.sycon.specs.Permutation.{permuted};
ghost use Rattle.std.specs.List.{flat_map};
ghost use Rattle.std.specs.Prelude.{◌≡◌, length, replicate};

use sycon::engine::Engine;

type Block = [u8; 8];

/// Four times the first 8 bytes, with 14 rounds between. The engine holds zeros then.
pub fn squeeze<E: Engine>(engine: &mut E) -> [u8; 32]
    ensures digest { result ≡ squeezed 4 (E.state engine.old) }
    ensures clear { E.state engine.new ≡ replicate 40 0 }
{
    let blocks = squeeze_blocks(engine);
    engine.load(&[0; 40]);
    joined(&blocks)
}

fn squeeze_blocks<E: Engine>(engine: &mut E) -> [Block; 4]
    ensures { flat_map (λ x. x) result ≡ squeezed 4 (E.state engine.old) }
{
    let mut blocks = [super::read::<8, E>(engine, 0); 4];
    squeeze_more(engine, &mut blocks[1..]);
    blocks
}

fn squeeze_more<E: Engine>(engine: &mut E, more: &mut [Block])
    ensures { flat_map (λ x. x) more.new
        ≡ squeezed (length more.old) (permuted 14 (E.state engine.old)) }
{
    for block in more.iter_mut() {
        engine.turn(14);
        *block = super::read::<8, E>(engine, 0);
    }
}

fn joined(blocks: &[Block; 4]) -> [u8; 32]
    ensures { result ≡ flat_map (λ x. x) blocks.now }
{
    let mut bytes = [0u8; 32];
    bytes.copy_from_slice(blocks.as_flattened());
    bytes
}
