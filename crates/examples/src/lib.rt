// The worked session and cases of the rules, gone through by one proof that the checker computes.
#![tactic(auto)]

ghost use Rattle.std.specs.Prelude.{◌≡◌, true, length};
ghost use Rattle.examples.specs.Worked.{all_hold, examples};

// How many examples there are: each of them is what the rules give.
pub fn worked_examples() -> usize
    ensures count { result ≡ length examples }
    ensures hold { all_hold examples ≡ true }
{
    7
}
