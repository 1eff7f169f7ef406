//! Laws of inputs of several zones, each as the contract of a function that does nothing.
ghost use Rattle.std.specs.Prelude.{◌≡◌, true, ℕ, List};
ghost use Rattle.zone_list.specs.Prelude.{Part, cut_from, begins_part, AreParts};

/// Lines of which the first begins a part are cut into parts that are all of them, and in one way only.
pub fn lines_are_parts_in_one_way()
    ensures all { (n : ℕ) (lines : List (List ℕ)) → begins_part lines ≡ true → AreParts n (cut_from n lines).parts lines }
    ensures only { (n : ℕ) (parts : List Part) (lines : List (List ℕ)) → AreParts n parts lines → (cut_from n lines).parts ≡ parts }
{}
