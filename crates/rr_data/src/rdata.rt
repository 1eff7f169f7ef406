//! The data of a record.
ghost use Rattle.std.specs.Prelude.{◌≡◌, ◌≤◌, ℕ, List, Some, None, length, map, if◌then◌else◌};
ghost use Rattle.rr_data.specs.Prelude.{All, data_of, is_data, IsPlaced, token_view, ReadsData, ReadsAgain};

use crate::forms::form_fits;
use crate::reading::push_data;
use crate::refusal::RdataRefusal;
use dns_name::Name;
use std::alloc::{AllocError, Global};
use std::marker::Model;
use std::mem::replace;
use zone_text::Token;

// The most octets that the length of a record's data can say (RFC 1035, section 3.2.1).
const LONGEST: usize = 65_535;

/// The data of a record, as the octets of its wire form: at most 65,535, names in lower case and without compression.
#[derive(Drop)]
pub struct Rdata {
    octets: Vec<u8>,
}

impl Model for Rdata {
    ghost use Rattle.std.specs.Prelude.{List, ℕ, ◌≤◌, length};

    ghost Value = { List ℕ };

    ghost view = { λ r. r.octets.items };

    ghost invariant = { λ r. length r.octets.items ≤ 65535 };
}

impl Clone for Rdata {
    ghost is_clone = { λ a b. b ≡ a };

    fn clone(&self) -> Result<Rdata, AllocError> {
        Ok(Rdata {
            octets: self.octets.clone()?,
        })
    }
}

impl Rdata {
    /// The data that these octets are.
    pub fn new(octets: Vec<u8>) -> Self
        requires { length octets.items ≤ 65535 }
        ensures { result ≡ octets.items }
    {
        Rdata { octets }
    }

    /// The data that these octets are, where they are of the type's form: for those that come from elsewhere, as in a
    /// message. Names in them have to be whole and in lower case (RFC 3597, section 4, names the types that may come
    /// with compressed ones).
    pub fn checked(rtype: u16, octets: Vec<u8>) -> Option<Self>
        ensures { result ≡ (if is_data rtype octets.items then Some octets.items else None) }
    {
        if octets.len() > LONGEST || !form_fits(rtype, &octets) {
            return None;
        }
        Some(Rdata { octets })
    }

    /// The octets.
    pub fn octets(&self) -> &[u8]
        ensures value { result.now ≡ self.now }
        ensures short { length self.now ≤ 65535 }
    {
        &self.octets
    }

    /// The data that tokens of `bytes` say for a type: in the form of the type (RFC 1035, section 5.1), or for any type
    /// as `\#`, the number of octets and their hexadecimal digits (RFC 3597, section 5). Names that don't end with a
    /// dot are relative to the origin.
    pub fn read(
        alloc: Global,
        rtype: u16,
        bytes: &[u8],
        tokens: &[Token],
        origin: &Name,
    ) -> Result<Rdata, RdataRefusal>
        requires placed { All (IsPlaced bytes.now) tokens.now }
        ensures { ReadsData result (data_of origin.now rtype (map (token_view bytes.now) tokens.now)) }
    {
        let mut data = Rdata::new(Vec::new(alloc));
        data.read_again(alloc, rtype, bytes, tokens, origin)?;
        Ok(data)
    }

    /// Reads data in place of these, in their memory, as `read` does. Where they are refused none are left.
    pub fn read_again(
        &mut self,
        alloc: Global,
        rtype: u16,
        bytes: &[u8],
        tokens: &[Token],
        origin: &Name,
    ) -> Result<(), RdataRefusal>
        requires placed { All (IsPlaced bytes.now) tokens.now }
        ensures { ReadsAgain result self.new (data_of origin.now rtype (map (token_view bytes.now) tokens.now)) }
    {
        let _wire = origin.wire(); // for the proof
        let mut octets = replace(&mut self.octets, Vec::new(alloc));
        octets.clear();
        push_data(alloc, origin, rtype, bytes, tokens, &mut octets)?;
        self.octets = octets;
        Ok(())
    }
}
