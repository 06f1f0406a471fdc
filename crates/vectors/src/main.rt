//! The published vectors, each computed and compared with what was published.

#![tactic(auto)]

use hex::FromHex;
use published::{KEY, LABEL, Sealed, TEXT};
use refusal::Refusal;
use sealing::{Domain, Rate, Rate64, Rate96, Under, absorb, digest, seal};
use sliced::Sliced;
use std::{array, fmt, io};
use sycon::engine;
use sycon::engine::{Engine, StateBytes};

const PERMUTED: &str =
    "31DED502D85527B07357D8E2BFA2AA39DED003A4D911131FBC9A5BA15618C464F23AD59EC3F5F72B";

const AT_64_BITS: Published = Published {
    sealed: "0535E98A36A013905C884ED69C752D05F81C3D57EA7DA62C5857B66824E8361A8C0B2FC9691B74",
    seal: "D744AB39F5233F2FD6357A9BE330D9A2",
};

const AT_96_BITS: Published = Published {
    sealed: "164F4F0463781EF41C3A512264B74C3B06A53BD345B8EB8E3B8D8F0930AC920591B16C4A3B5DF9",
    seal: "06F990758FE75620A11210C7095EBECD",
};

// The slips are at 96 bits.
const BLOCK: usize = Rate96::BLOCK;

const ROUNDS: usize = Rate96::ROUNDS;

const DIGEST: &str = "95088252C915EF0B5013BEA358ACEB366096D2E179603ED49D1BF60A9BF52956";

// What was published of the sealed text.
struct Published {
    sealed: &'static str,
    seal: &'static str,
}

fn main(rt: HostRuntime) -> io::Result<()> {
    let mut engine = Sliced::new();
    permutation(&rt, &mut engine)?;
    at_rate::<Rate64>(&rt, &mut engine, "64 bits", &AT_64_BITS)?;
    at_rate::<Rate96>(&rt, &mut engine, "96 bits, by the rules", &AT_96_BITS)?;
    let slipped = seal_with_slips(&mut engine);
    compare_sealed(&rt, "96 bits, with two slips", &slipped, &AT_96_BITS)?;
    digests(&rt, &mut engine)
}

fn permutation(rt: &HostRuntime, engine: &mut Sliced) -> io::Result<()> {
    engine.load(&example());
    engine.turn(14);
    let name = "14 rounds on 20 bytes 00 and 20 bytes AA";
    compare(rt, name, &engine::bytes(engine), PERMUTED)
}

fn example() -> StateBytes {
    array::from_fn(|k| if k < 20 { 0 } else { 0xAA })
}

fn at_rate<R: Rate>(
    rt: &HostRuntime,
    engine: &mut Sliced,
    name: &str,
    published: &Published,
) -> io::Result<()> {
    match seal_by_the_rules::<R>(engine) {
        Ok(sealed) => compare_sealed(rt, name, &sealed, published),
        Err(_) => println!(rt; "{name}: refused"),
    }
}

fn seal_by_the_rules<R: Rate>(engine: &mut Sliced) -> Result<Sealed, Refusal> {
    let under = Under {
        key: &KEY,
        nonce: &KEY,
        label: &LABEL,
    };
    let mut bytes = [0; TEXT.len()];
    let mut tag = [0; 16];
    seal::<R, Sliced>(engine, under, &TEXT, &mut bytes, &mut tag)?;
    Ok(Sealed { bytes, tag })
}

// The last label block repeats bytes 8 to 11 of the label instead of taking 12 to 15, and in finishing the 1 bit of the
// second key block's padding falls on its first byte.
fn seal_with_slips(engine: &mut Sliced) -> Sealed {
    let [.., a, b, c, d] = KEY;
    let mut bytes = [0; TEXT.len()];
    engine.load(&loaded());
    engine.turn(14);
    absorb(engine, &KEY[..BLOCK], Domain(0), 14);
    absorb(engine, &padded(&[a, b, c, d]), Domain(1), 14);
    absorb(engine, &LABEL[..BLOCK], Domain(1), ROUNDS);
    absorb(engine, &padded(&LABEL[8..12]), Domain(2), ROUNDS);
    for (text, sealed) in TEXT.chunks(BLOCK).zip(bytes.chunks_mut(BLOCK)) {
        let domain = Domain(if text.len() == BLOCK { 2 } else { 4 });
        seal_block(engine, text, sealed);
        absorb(engine, &padded(text), domain, ROUNDS);
    }
    absorb(engine, &KEY[..BLOCK], Domain(4), 14);
    absorb(engine, &[a ^ 1, b, c, d], Domain(4), 14);
    Sealed {
        bytes,
        tag: array::from_fn(|k| engine.byte(16 + k)),
    }
}

fn compare_sealed(
    rt: &HostRuntime,
    name: &str,
    sealed: &Sealed,
    published: &Published,
) -> io::Result<()> {
    compare(
        rt,
        format_args!("{name}, sealed bytes"),
        &sealed.bytes,
        published.sealed,
    )?;
    compare(
        rt,
        format_args!("{name}, seal"),
        &sealed.tag,
        published.seal,
    )
}

// Key, nonce and the initial vector of 96 bits.
fn loaded() -> StateBytes {
    let mut bytes = [0; 40];
    bytes[..16].copy_from_slice(&KEY);
    bytes[16..32].copy_from_slice(&KEY);
    bytes[32..].copy_from_slice(&Rate96::INITIAL_VECTOR.to_le_bytes());
    bytes
}

// At most a block of bytes, with the padding behind them where they leave room.
fn padded(bytes: &[u8]) -> [u8; BLOCK] {
    array::from_fn(|k| match bytes.get(k) {
        Some(b) => *b,
        None => u8::from(k == bytes.len()),
    })
}

// The sealed bytes of one block of text.
fn seal_block(engine: &Sliced, text: &[u8], sealed: &mut [u8]) {
    for (k, (y, x)) in sealed.iter_mut().zip(text).enumerate() {
        *y = engine.byte(k) ^ *x;
    }
}

fn digests(rt: &HostRuntime, engine: &mut Sliced) -> io::Result<()> {
    let counted: [u8; TEXT.len()] = array::from_fn(|k| k as u8);
    digest_of(rt, engine, "digest of the printed text", &TEXT)?;
    digest_of(rt, engine, "digest of the bytes 00 to 26", &counted)
}

fn digest_of(rt: &HostRuntime, engine: &mut Sliced, name: &str, text: &[u8]) -> io::Result<()> {
    let mut place = [0; 32];
    match digest(engine, text, &mut place) {
        Ok(()) => compare(rt, name, &place, DIGEST),
        Err(_) => println!(rt; "{name}: refused"),
    }
}

fn compare<const N: usize>(
    rt: &HostRuntime,
    name: impl fmt::Display + Drop,
    computed: &[u8; N],
    published: &str,
) -> io::Result<()> {
    let agrees = <[u8; N]>::from_hex(published).is_ok_and(|bytes| bytes == *computed);
    let verdict = if agrees { "agrees" } else { "differs" };
    println!(rt;
        "{name}: computed {}, published {published}: {verdict}",
        Hex(computed)
    )
}

// Bytes, each as two digits. Printed as they are, so that no memory is asked for.
#[derive(Clone, Copy)]
struct Hex<'a>(&'a [u8]);

impl fmt::Display for Hex<'_> {
    fn fmt<W: fmt::Write>(&self, f: &mut fmt::Formatter<W>) -> fmt::Result {
        for b in self.0 {
            write!(f, "{b:02X}")?;
        }
        Ok(())
    }
}
