//! The engines' permutation and sealing with the engine of five words, for C programs that time them. C has no generics and no
//! `Result`: each engine has functions of its own, and an answer is a number.

#![tactic(auto)]

ghost use Rattle.bench.specs.Codes.{code as code_of_lem, coded};
ghost use Rattle.columns.specs.Engine.{state_of as columns_state};
ghost use Rattle.sealing.specs.Bytewise.{SealsBytewise};
ghost use Rattle.sealing.specs.Calls.{sealing as sealing_call};
ghost use Rattle.sliced.specs.Sliced.{state_of as sliced_state};
ghost use Rattle.sponge.specs.Rates.{narrow};
ghost use Rattle.sycon.specs.Permutation.{permuted};
ghost use Rattle.std.specs.Prelude.{◌≡◌};

use columns::Columns;
use refusal::Refusal;
use sealing::{Rate64, Under, seal};
use sliced::Sliced;
use sycon::engine::{Engine, TwoWay};

#[unsafe(no_mangle)]
pub extern "C" fn sliced_turn(engine: &mut Sliced, r: usize)
    ensures { sliced_state engine.new ≡ permuted r (sliced_state engine.old) }
{
    <Sliced as Engine>::turn(engine, r);
}

#[unsafe(no_mangle)]
pub extern "C" fn sliced_turn_back(engine: &mut Sliced, r: usize)
    ensures { permuted r (sliced_state engine.new) ≡ sliced_state engine.old }
{
    <Sliced as TwoWay>::turn_back(engine, r);
}

#[unsafe(no_mangle)]
pub extern "C" fn columns_turn(engine: &mut Columns, r: usize)
    ensures { columns_state engine.new ≡ permuted r (columns_state engine.old) }
{
    <Columns as Engine>::turn(engine, r);
}

#[unsafe(no_mangle)]
pub extern "C" fn columns_turn_back(engine: &mut Columns, r: usize)
    ensures { permuted r (columns_state engine.new) ≡ columns_state engine.old }
{
    <Columns as TwoWay>::turn_back(engine, r);
}

/// Seals at 64 bits. Gives 0, or the number of the refusal. C passes each slice as an address and a length, and so no `Under`.
#[unsafe(no_mangle)]
pub extern "C" fn sliced_seal(
    engine: &mut Sliced,
    key: &[u8],
    nonce: &[u8],
    label: &[u8],
    text: &[u8],
    sealed: &mut [u8],
    tag: &mut [u8],
) -> u8
    ensures outcome { (result, sealed.new, tag.new, sliced_state engine.new)
        ≡ coded (sealing_call narrow key.now nonce.now label.now text.now
        sealed.old tag.old (sliced_state engine.old)) }
    ensures bytewise { SealsBytewise narrow key.now nonce.now label.now }
{
    let under = Under { key, nonce, label };
    code(seal::<Rate64, Sliced>(engine, under, text, sealed, tag))
}

fn code(answer: Result<(), Refusal>) -> u8
    ensures { result ≡ code_of_lem answer }
{
    match answer {
        Ok(()) => 0,
        Err(refusal) => refusal.number(),
    }
}
