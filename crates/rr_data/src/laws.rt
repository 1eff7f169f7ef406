//! Laws of records, each as the contract of a function that does nothing.
ghost use Rattle.std.specs.Prelude.{◌≡◌, ℕ, ◌<◌, ◌≤◌, ◌^◌, false, [], ◌∷◌, ◌++◌, List, length, Option, Some, Ok, drop, decimal, option_and_then};
ghost use Rattle.rr_data.specs.Prelude.{flat_map, option_map, Name, Entry, IsItem, number, escaped_octet, escape_len, octets_from};
ghost use Rattle.rr_data.specs.Prelude.{unescaped, Slash, paired, time_of, data_type, type_named, Field, field_octets, of_form};
ghost use Rattle.rr_data.specs.Prelude.{data_of, field_text, string_text, hex_text, type_text, data_text_in, Token, Spells, ReadsUnder};

/// Octets are the item of one owner and one entry at most. So an entry is what is read from the item that it makes.
pub fn items_are_told_apart()
    ensures { (bytes : List ℕ) (a b : Name) (e f : Entry) → IsItem bytes a e → IsItem bytes b f → (a ≡ b) × (e ≡ f) }
{}

/// What stands behind a backslash is the same octet in a string as in a name.
pub fn escapes_are_alike()
    ensures { (text : List ℕ) → octets_from Slash text ≡ option_and_then (λ o. option_map (λ cs. o ∷ cs) (unescaped (drop (escape_len text) text)))
        (escaped_octet text) }
{}

/// What is read from a printed string is that string.
pub fn printed_strings_read_back(octets: &[u8])
    ensures { unescaped (string_text octets.now) ≡ Some octets.now }
{
    let _ = octets;
}

/// What is read from the printed digits of octets are these octets.
pub fn printed_digits_read_back(octets: &[u8])
    ensures { paired (flat_map hex_text octets.now) ≡ octets.now }
{
    let _ = octets;
}

/// What is read from a printed number is that number, as long as it is none over the most; for a time to live too.
pub fn printed_numbers_read_back()
    ensures numbers { (most n : ℕ) → n < 2 ^ 64 → n ≤ most → number most (decimal n) ≡ Some n }
    ensures times { (n : ℕ) → n ≤ 2147483647 → time_of (decimal n) ≡ Some n }
{}

/// What is read from a printed type is that type, unless it is none that data has.
pub fn printed_types_read_back()
    ensures { (n : ℕ) → n ≤ 65535 → type_named (type_text n) ≡ data_type n }
{}

/// What is read from the printed text of a field are the octets that it was printed of: under the origin that names were
/// printed relative to, and under any where they are absolute.
pub fn printed_fields_read_back(octets: &[u8])
    ensures { (printed : Option Name) (origin : Name) → ReadsUnder printed origin →
        (field : Field) (text rest : List ℕ) → field_text printed field octets.now ≡ Some (text, rest) →
        (front : List ℕ) × (field_octets origin field text ≡ Some front) × (octets.now ≡ front ++ rest) }
{
    let _ = octets;
}

/// A line with printed data is cut into tokens that say the octets again: under the origin that names were printed
/// relative to, and under any where they are absolute. Octets that aren't of their type's form are printed as data of any
/// type is, and then refused for their form.
pub fn printed_data_reads_back(octets: &[u8])
    ensures { (printed : Option Name) (line rtype : ℕ) → length octets.now ≤ 65535 →
        (tokens : List Token) × Spells line [] (data_text_in printed rtype octets.now) (Ok (record { tokens = tokens; parens = false; opens = [] }))
        × ((origin : Name) → ReadsUnder printed origin → data_of origin rtype tokens ≡ of_form rtype octets.now) }
{
    let _ = octets;
}
