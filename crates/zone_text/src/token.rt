//! Tokens of a text.
ghost use Rattle.std.specs.Prelude.{◌≡◌, MatchOption, true, false};
ghost use Rattle.zone_text.specs.Prelude.{slice_range, IsPlaced};

/// A token: its text is the bytes from `from` up to but not including `upto` of the bytes that it was read from. The
/// quotes around it lie outside, its escapes are still in it. Lines count from 1.
#[derive(Clone, Copy, Debug)]
pub struct Token {
    pub from: u32,
    pub upto: u32,
    pub quoted: bool,
    pub line: u32,
}

impl Token {
    /// The token's text.
    pub fn text(self, bytes: &[u8]) -> &[u8]
        requires { IsPlaced bytes.now self }
        ensures { result.now ≡ slice_range bytes.now self.from self.upto }
    {
        &bytes[self.from as usize..self.upto as usize]
    }

    /// The token's text, unless it was quoted.
    pub fn plain(self, bytes: &[u8]) -> Option<&[u8]>
        requires { IsPlaced bytes.now self }
        ensures { MatchOption result (self.quoted ≡ true) (λ text. (self.quoted ≡ false) × (text.now ≡ slice_range bytes.now self.from self.upto)) }
    {
        if self.quoted {
            return None;
        }
        Some(self.text(bytes))
    }
}
