//! What the definitions say of responses, as the contracts of functions that do nothing.

ghost use Rattle.std.specs.Prelude.{◌≡◌, ℕ, true, false, ◌∷◌, [], codes};
ghost use Rattle.zone_answer.specs.Agreement.{Agrees, HasNoneTwice};
ghost use Rattle.zone_answer.specs.Answers.{answer};
ghost use Rattle.zone_answer.specs.Prelude.{Labels, Version, respond};
ghost use Rattle.zone_answer.specs.ResponseExample.{Says, responded, negative_time, mail, ns, ns_sub, other, sub, zone};
ghost use Rattle.zone_answer.specs.AnswerExample.{named, origin};

use crate::header::Code;

/// A response has the rows of the answer to its question, and the code of its kind.
pub fn responses_agree_with_answers()
    ensures { (origin name : Labels) (version : Version) (rtype : ℕ) → Agrees (respond origin version name rtype) (answer origin version name rtype) }
{}

/// No RRset is twice in the additional section, and none of it is in the answer.
pub fn responses_say_nothing_twice()
    ensures { (origin name : Labels) (version : Version) (rtype : ℕ) → HasNoneTwice (respond origin version name rtype) }
{}

/// Responses of a zone with a delegation, a wildcard and mail, which have addresses to add.
#[tactic(auto, unfolding(crate::specs::ResponseExample::responded, crate::specs::Answers::followed, zone_model::specs::Splits::split_labels))]
pub fn responses_with_addresses_are_as_they_should()
    ensures alias_into_a_cut { Says Code.NoError true ((named (codes "in" ∷ []), 5) ∷ []) ((sub, 2) ∷ (sub, 2) ∷ (sub, 2) ∷ [])
        ((ns, 1) ∷ (ns, 1) ∷ (ns_sub, 1) ∷ []) (responded (codes "in" ∷ []) 1) }
    ensures cut { Says Code.NoError false [] ((sub, 2) ∷ (sub, 2) ∷ (sub, 2) ∷ []) ((ns, 1) ∷ (ns, 1) ∷ (ns_sub, 1) ∷ []) (responded (codes "sub" ∷ []) 1) }
    ensures servers_at_a_wildcard { Says Code.NoError true ((named (codes "y" ∷ []), 2) ∷ []) [] ((ns, 1) ∷ (ns, 1) ∷ []) (responded (codes "y" ∷ []) 2) }
    ensures two_for_one_host { Says Code.NoError true ((origin, 15) ∷ (origin, 15) ∷ []) [] ((mail, 1) ∷ (mail, 28) ∷ []) (responded [] 15) }
{}

/// Those that have none to add.
#[tactic(auto, unfolding(crate::specs::ResponseExample::responded, crate::specs::Answers::followed, zone_model::specs::Splits::split_labels))]
pub fn responses_without_more_are_as_they_should()
    ensures addresses_alone { Says Code.NoError true ((mail, 1) ∷ []) [] [] (responded (codes "mail" ∷ []) 1) }
    ensures no_such_type { Says Code.NoError true [] ((origin, 6) ∷ []) [] (responded (codes "ns" ∷ []) 16) }
    ensures no_such_name { Says Code.NxDomain true [] ((origin, 6) ∷ []) [] (responded (codes "y" ∷ codes "mail" ∷ []) 1) }
{}

/// The time of the SOA beside a negative answer is never more than its minimum, and outside of the zone nothing is said.
#[tactic(auto, unfolding(crate::specs::ResponseExample::negative_time, crate::specs::Answers::followed, zone_model::specs::Splits::split_labels))]
pub fn negative_answers_last_as_they_should()
    ensures more { negative_time 3600 ≡ 60 ∷ [] }
    ensures less { negative_time 30 ≡ 30 ∷ [] }
    ensures outside { Says Code.Refused false [] [] [] (respond origin (zone 3600) other 1) }
{}
