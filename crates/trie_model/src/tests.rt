//! The definitions, computed on keys of names.

ghost use Rattle.std.specs.Prelude.{◌≡◌, ◌∷◌, []};
ghost use Rattle.trie_model.specs.Shape.{nodes, first_difference};

// example., a.example., b.a.example. and ns.example. differ at place 8, and the second and third then at 10.
fn nodes_of_four_names() -> (u32, u32)
    ensures nodes { result.0 ≡ nodes ((21 ∷ 40 ∷ 17 ∷ 29 ∷ 32 ∷ 28 ∷ 21 ∷ 0 ∷ []) ∷ (21 ∷ 40 ∷ 17 ∷ 29 ∷ 32 ∷ 28 ∷ 21 ∷ 0 ∷ 17 ∷ 0 ∷ []) ∷ (21 ∷ 40 ∷ 17 ∷ 29 ∷ 32 ∷ 28 ∷ 21 ∷ 0 ∷ 17 ∷ 0 ∷ 18 ∷ 0 ∷ []) ∷ (21 ∷ 40 ∷ 17 ∷ 29 ∷ 32 ∷ 28 ∷ 21 ∷ 0 ∷ 30 ∷ 35 ∷ 0 ∷ []) ∷ []) }
    ensures place { result.1 ≡ first_difference ((21 ∷ 40 ∷ 17 ∷ 29 ∷ 32 ∷ 28 ∷ 21 ∷ 0 ∷ 17 ∷ 0 ∷ []) ∷ (21 ∷ 40 ∷ 17 ∷ 29 ∷ 32 ∷ 28 ∷ 21 ∷ 0 ∷ 17 ∷ 0 ∷ 18 ∷ 0 ∷ []) ∷ []) }
{
    (6, 10)
}

#[test]
fn four_names_have_six_nodes(rt: HostRuntime) {
    assert_eq!(rt; nodes_of_four_names(), (6, 10));
}
