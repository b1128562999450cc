//! What the table of the functions says as a whole. The functions do nothing: each is there for its
//! clause.
ghost use Rattle.std.specs.Prelude.{◌≡◌, ◌≤◌, ◌||◌, ℕ, List, [], ◌∷◌, Contains, IfSome, None, Some, false};
ghost use Rattle.cs_syntax.specs.Faults.{Fault, is_path, number_faults};
ghost use Rattle.cs_syntax.specs.Functions.{Arity, functions, arity_of, is_left_out, without_global};
ghost use Rattle.cs_syntax.specs.Numbers.{whole_number, written_number};

/// Each name of the list of functions is found, with the arguments that the list gives to it.
pub fn each_function_has_its_arity()
    ensures { (row : List ℕ × Arity) → Contains functions row → arity_of row.0 ≡ Some row.1 }
{}

/// No name of a function is one that the profile leaves out, and none is `path`, which stands on
/// the right of `in` alone. So of the faults of a call its name has one at most.
pub fn no_function_is_left_out()
    ensures { (name : List ℕ) (arity : Arity) → arity_of name ≡ Some arity
        → (is_left_out name || is_path name) ≡ false }
{}

/// A function that `global::` stands in front of takes the same arguments without it: evaluation
/// asks for the name without it.
pub fn global_is_the_same_function()
    ensures { (row : List ℕ × Arity) → Contains functions row
        → arity_of (without_global row.0) ≡ Some row.1 }
{}

/// A number as it is written has a fault, or it stands for a number of 64 bits, and never both.
pub fn a_number_without_fault_fits()
    ensures taken { (number : List ℕ) → number_faults number ≡ []
        → written_number number ≡ Some (whole_number number) }
    ensures refused { (number : List ℕ) (first : Fault) (more : List Fault)
        → number_faults number ≡ first ∷ more → written_number number ≡ None }
    ensures fits { (number : List ℕ)
        → IfSome (written_number number) (λ n. n ≤ 9223372036854775807) }
{}
