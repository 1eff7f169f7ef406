//! What the definitions say of a zone, as the contract of a function that does nothing.

ghost use Rattle.std.specs.Prelude.{◌≡◌, ◌∷◌, [], codes};
ghost use Rattle.zone_answer.specs.declared.kind.Kind.{Kind};
ghost use Rattle.zone_answer.specs.AnswerExample.{asked, Says, named, first_data, second_data};

use crate::kind::Kind;

/// Questions about the zone of RFC 4592, section 2.2.1, for names that its wildcard stands for, have the answers that are given there.
#[tactic(auto, unfolding(crate::specs::AnswerExample::asked, crate::specs::Answers::followed))]
pub fn wildcards_answer_as_they_should()
    ensures synthesized { asked (codes "host3" ∷ []) 15
        ≡ record { kind = Kind.Answered; rows = record { owner = named (codes "host3" ∷ []); rtype = 15; ttl = 3600; octets = first_data } ∷ [] } }
    ensures without_type { Says Kind.Nodata 0 (asked (codes "host3" ∷ []) 1) }
    ensures further_down { Says Kind.Answered 1 (asked (codes "foo" ∷ codes "bar" ∷ []) 16) }
{}

/// So have those for names that are there, or that something keeps it from.
#[tactic(auto, unfolding(crate::specs::AnswerExample::asked, crate::specs::Answers::followed))]
pub fn names_apart_from_wildcards_answer_as_they_should()
    ensures empty_non_terminal { Says Kind.Nodata 0 (asked (codes "host2" ∷ []) 15) }
    ensures there { Says Kind.Nodata 0 (asked (codes "sub" ∷ codes "*" ∷ []) 15) }
    ensures enclosed { Says Kind.Nxdomain 0 (asked (codes "_telnet" ∷ codes "_tcp" ∷ codes "host1" ∷ []) 33) }
    ensures delegated { Says Kind.Referral 2 (asked (codes "host" ∷ codes "subdel" ∷ []) 1) }
    ensures under_the_wildcard { Says Kind.Nxdomain 0 (asked (codes "ghost" ∷ codes "*" ∷ []) 15) }
{}

/// Of two cuts the one nearest to the origin counts, and a ring of aliases ends with the sixteenth.
#[tactic(auto, unfolding(crate::specs::AnswerExample::asked, crate::specs::Answers::followed, zone_model::specs::Splits::split_labels))]
pub fn cuts_and_aliases_answer_as_they_should()
    ensures nearest_to_the_origin { asked (codes "x" ∷ codes "deeper" ∷ codes "subdel" ∷ []) 1 ≡ asked (codes "subdel" ∷ []) 2 }
    ensures ring { Says Kind.Answered 16 (asked (codes "a" ∷ []) 1) }
    ensures alias_itself { Says Kind.Answered 1 (asked (codes "a" ∷ []) 5) }
{}
