//! What the definitions say of a zone, as the contract of a function that does nothing.

ghost use Rattle.std.specs.Prelude.{◌≡◌, ◌∷◌, [], codes, Some, None};
ghost use Rattle.trie_read.specs.declared.found.Kind.{Kind};
ghost use Rattle.zone_answer.specs.Around as around;
ghost use Rattle.zone_answer.specs.NameExample.{named, names, zone};

/// The names of RFC 4034, section 6.1, follow others as they should, in either direction.
pub fn names_follow_others_as_they_should()
    ensures all { around.walk (named []) 100 zone ≡ names }
    ensures few { around.walk (named (codes "zz" ∷ codes "a" ∷ [])) 2 zone ≡ named (codes "z" ∷ []) ∷ named ((1 ∷ []) ∷ codes "z" ∷ []) ∷ [] }
    ensures none_behind { around.walk (codes "com" ∷ []) 0 zone ≡ [] }
    ensures backwards { around.back (named (codes "z" ∷ codes "a" ∷ [])) 2 zone ≡ named (codes "yljkjljk" ∷ codes "a" ∷ []) ∷ named (codes "a" ∷ []) ∷ [] }
    ensures none_before { around.back (named []) 9 zone ≡ [] }
{}

/// They are found as they should be, with those above them and the last one before them.
pub fn names_are_found_as_they_should()
    ensures exact { around.find (named (codes "a" ∷ [])) zone
        ≡ record { kind = Kind.Exact; chain = named [] ∷ named (codes "a" ∷ []) ∷ []; predecessor = Some (named (codes "a" ∷ [])) } }
    ensures partial { around.find (named (codes "b" ∷ codes "a" ∷ [])) zone
        ≡ record { kind = Kind.Partial; chain = named [] ∷ named (codes "a" ∷ []) ∷ []; predecessor = Some (named (codes "a" ∷ [])) } }
    ensures absent { around.find (codes "com" ∷ []) zone ≡ record { kind = Kind.Absent; chain = []; predecessor = None } }
{}
