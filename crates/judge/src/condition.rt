ghost use Rattle.std.specs.Prelude.{◌≡◌, Bool};
ghost use Rattle.std.specs.List.{list_any};
ghost use Rattle.sheet.specs.declared.row.Test.{Test};
ghost use Rattle.sheet.specs.Rows.{tests_of};
ghost use Rattle.judge.specs.Tests.{opposed, opposed_to, excluding, among, all_among, all_within, tested, none_twice};

use sheet::{Condition, Relation, Test};

// Whether no word passes both tests, which are of one variable.
fn is_opposed(s: Test, t: Test) -> bool
    ensures { result ≡ opposed s t }
{
    s.variable == t.variable
        && match (s.relation, t.relation) {
            (Relation::Equal, Relation::Equal) => s.word != t.word,
            (Relation::Equal, Relation::Unequal) | (Relation::Unequal, Relation::Equal) => {
                s.word == t.word
            }
            (Relation::Unequal, Relation::Unequal) => false,
        }
}

// Whether some test of a condition passes a question. (By the cases: lists of the tests, made anew for each pair of rows,
// made judging half as long again.)
fn some_test<F: Fn(Test) -> bool>(c: Condition, question: F) -> bool
    requires { F.IsAlwaysCallable question }
    ensures { (passes : Test → Bool) → ((t : Test) (b : Bool) → F.post question t b → b ≡ passes t) → result ≡ list_any passes (tests_of c) }
{
    match c {
        Condition::Always => false,
        Condition::One(a) => question(a),
        Condition::Two(a, b) => question(a) || question(b),
        Condition::Three(a, b, d) => question(a) || question(b) || question(d),
        Condition::Four(a, b, d, e) => question(a) || question(b) || question(d) || question(e),
    }
}

fn is_opposed_to(s: Test, c: Condition) -> bool
    ensures { result ≡ opposed_to s (tests_of c) }
{
    some_test(c, |t| is_opposed(s, t))
}

// Whether the two conditions can never hold together.
pub fn excludes(one: Condition, other: Condition) -> bool
    ensures { result ≡ excluding (tests_of one) (tests_of other) }
{
    some_test(one, |s| is_opposed_to(s, other))
}

fn is_among(s: Test, c: Condition) -> bool
    ensures { result ≡ among s (tests_of c) }
{
    c.tests().contains(&s)
}

// Whether each test of `one` is among those of `all`.
pub fn all_among(one: Condition, all: Condition) -> bool
    ensures { result ≡ all_among (tests_of one) (tests_of all) }
{
    one.tests().iter().all(|t| is_among(*t, all))
}

// Whether each tested variable is one of the sheet's.
pub fn tests_within(c: Condition, variables: u32) -> bool
    ensures { result ≡ all_within variables (tests_of c) }
{
    c.tests().iter().all(|t| t.variable < variables)
}

// Whether a variable is tested.
fn is_tested(v: u32, tests: &[Test]) -> bool
    ensures { result ≡ tested v tests.now }
{
    tests.iter().any(|t| v == t.variable)
}

// Whether no variable stands twice.
pub fn none_twice(c: Condition) -> bool
    ensures { result ≡ none_twice (tests_of c) }
{
    let tests = c.tests();
    for (i, t) in tests.iter().enumerate() {
        if is_tested(t.variable, &tests[i + 1..]) {
            return false;
        }
    }
    true
}
