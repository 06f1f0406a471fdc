//! What a text is sealed under.

ghost use Rattle.refusal.specs.declared.Refusal.TheVariants.{Measure};
ghost use Rattle.sealing.specs.Bytewise.{SealsBytewise};
ghost use Rattle.sealing.specs.Calls.{measured};
ghost use Rattle.std.specs.Prelude.{◌≡◌, true, false, length, MatchResult};

use refusal::Refusal;
use sponge::Rate;

/// A key, a nonce and a label. Key and nonce should have 16 bytes each; a call refuses others.
#[derive(Clone, Copy)]
pub struct Under<'a> {
    pub key: &'a [u8],
    pub nonce: &'a [u8],
    pub label: &'a [u8],
}

// The same, measured.
#[derive(Clone, Copy)]
pub(crate) struct Keyed<'a> {
    pub key: &'a [u8; 16],
    pub nonce: &'a [u8; 16],
    pub label: &'a [u8],
}

impl<'a> Under<'a> {
    // Refuses unless the seal has 16 bytes too, and there is room for all bytes that are needed.
    pub(crate) fn measure(
        self,
        tag: &[u8],
        needed: usize,
        room: usize,
    ) -> Result<Keyed<'a>, Refusal>
        ensures { MatchResult result
            (λ k. (measured (length self.entry.key.now) (length self.entry.nonce.now) (length tag.now) needed room ≡ true)
            × (k.key.now ≡ self.entry.key.now) × (k.nonce.now ≡ self.entry.nonce.now) × (k.label.now ≡ self.entry.label.now))
            (λ e. (measured (length self.entry.key.now) (length self.entry.nonce.now) (length tag.now) needed room ≡ false)
            × (e ≡ Measure)) }
    {
        let key = self.key.as_array::<16>().ok_or(Refusal::Measure)?;
        let nonce = self.nonce.as_array::<16>().ok_or(Refusal::Measure)?;
        if tag.len() != 16 || room < needed {
            return Err(Refusal::Measure);
        }
        Ok(Keyed {
            key,
            nonce,
            label: self.label,
        })
    }

    // Sealing by blocks is sealing a byte at a time.
    pub(crate) fn seals_bytewise<R: Rate>(self)
        ensures { SealsBytewise R.setting self.entry.key.now self.entry.nonce.now self.entry.label.now }
    {}
}
