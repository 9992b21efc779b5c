//! The heads of theories Core and Reals, and their names: the one table of them.

ghost use Rattle.std.specs.Prelude.{◌≡◌, take, drop, option_map};
ghost use Rattle.std.specs.Str.{bytes_eq};
ghost use Rattle.spec_sorts.specs.Theory.{look_up, theory, takes_count};
ghost use Rattle.spec_sorts.specs.HeadNames.{head_name};
ghost use Rattle.term_core.specs.Tables.{HasHead, head_meant};
ghost use Rattle.term_core.specs.TheoryHeads.{theory_name, rule_of};

use crate::nodes::Head;
use crate::terms::TermTable;

/// Names a function of theories Core and Reals: the heads of terms, and `distinct`, `>` and `>=`, which are read as terms
/// of these.
///
/// Source: SMT-LIB 2.6, theories Core and Reals.
#[derive(Clone, Copy, Debug, PartialEq, Eq)]
pub enum TheoryHead {
    /// The truth value true.
    True,
    /// The truth value false.
    False,
    /// The negation of one argument.
    Not,
    /// That all arguments are true, of which there is one at least.
    And,
    /// That one of the arguments is true, of which there is one at least.
    Or,
    /// That one of two is true and the other is not; of more arguments it is taken to the left.
    Xor,
    /// That the second of two is true where the first is; of more arguments it is taken to the right.
    Implies,
    /// That each argument has the value of the next; there are two at least.
    Equal,
    /// That no two arguments have the same value; there are two at least.
    Distinct,
    /// The second of three arguments where the first is true, else the third.
    Ite,
    /// The negative of one argument, or the difference of two; of more it is taken to the left.
    Minus,
    /// The sum of the arguments, of which there is one at least.
    Plus,
    /// The product of the arguments, of which there is one at least.
    Times,
    /// The quotient of two arguments; of more it is taken to the left.
    Divide,
    /// That each argument is less than the next; there are two at least.
    Less,
    /// That each argument is at most the next; there are two at least.
    AtMost,
    /// That each argument is greater than the next; there are two at least.
    Greater,
    /// That each argument is at least the next; there are two at least.
    AtLeast,
}

impl TheoryHead {
    /// Lends the name that the head is written by, without bars.
    ///
    /// Source: SMT-LIB 2.6, theories Core and Reals.
    pub fn name(self) -> &'static [u8]
        ensures { result.now ≡ theory_name self }
    {
        match self {
            TheoryHead::True => b"true",
            TheoryHead::False => b"false",
            TheoryHead::Not => b"not",
            TheoryHead::And => b"and",
            TheoryHead::Or => b"or",
            TheoryHead::Xor => b"xor",
            TheoryHead::Implies => b"=>",
            TheoryHead::Equal => b"=",
            TheoryHead::Distinct => b"distinct",
            TheoryHead::Ite => b"ite",
            TheoryHead::Minus => b"-",
            TheoryHead::Plus => b"+",
            TheoryHead::Times => b"*",
            TheoryHead::Divide => b"/",
            TheoryHead::Less => b"<",
            TheoryHead::AtMost => b"<=",
            TheoryHead::Greater => b">",
            TheoryHead::AtLeast => b">=",
        }
    }

    /// Finds the head with that name, which is written without bars; `None` where there is none. It takes no memory.
    ///
    /// Source: SMT-LIB 2.6, theories Core and Reals.
    pub fn named(name: &[u8]) -> Option<TheoryHead>
        ensures { option_map rule_of result ≡ look_up theory name.now }
    {
        if let Some(head) = TheoryHead::core_named(name) {
            return Some(head);
        }
        TheoryHead::reals_named(name)
    }

    /// Finds the head of theory Core with that name.
    #[tactic(auto, unfolding(crate::specs::TheoryHeads::rule_of))]
    fn core_named(name: &[u8]) -> Option<TheoryHead>
        ensures { option_map rule_of result ≡ look_up (take 10 theory) name.now }
    {
        if TheoryHead::True.is_named(name) {
            return Some(TheoryHead::True);
        }
        if TheoryHead::False.is_named(name) {
            return Some(TheoryHead::False);
        }
        if TheoryHead::Not.is_named(name) {
            return Some(TheoryHead::Not);
        }
        if TheoryHead::And.is_named(name) {
            return Some(TheoryHead::And);
        }
        if TheoryHead::Or.is_named(name) {
            return Some(TheoryHead::Or);
        }
        if TheoryHead::Xor.is_named(name) {
            return Some(TheoryHead::Xor);
        }
        if TheoryHead::Implies.is_named(name) {
            return Some(TheoryHead::Implies);
        }
        if TheoryHead::Equal.is_named(name) {
            return Some(TheoryHead::Equal);
        }
        if TheoryHead::Distinct.is_named(name) {
            return Some(TheoryHead::Distinct);
        }
        if TheoryHead::Ite.is_named(name) {
            return Some(TheoryHead::Ite);
        }
        None
    }

    /// Finds the head of theory Reals with that name.
    #[tactic(auto, unfolding(crate::specs::TheoryHeads::rule_of))]
    fn reals_named(name: &[u8]) -> Option<TheoryHead>
        ensures { option_map rule_of result ≡ look_up (drop 10 theory) name.now }
    {
        if TheoryHead::Minus.is_named(name) {
            return Some(TheoryHead::Minus);
        }
        if TheoryHead::Plus.is_named(name) {
            return Some(TheoryHead::Plus);
        }
        if TheoryHead::Times.is_named(name) {
            return Some(TheoryHead::Times);
        }
        if TheoryHead::Divide.is_named(name) {
            return Some(TheoryHead::Divide);
        }
        if TheoryHead::Less.is_named(name) {
            return Some(TheoryHead::Less);
        }
        if TheoryHead::AtMost.is_named(name) {
            return Some(TheoryHead::AtMost);
        }
        if TheoryHead::Greater.is_named(name) {
            return Some(TheoryHead::Greater);
        }
        if TheoryHead::AtLeast.is_named(name) {
            return Some(TheoryHead::AtLeast);
        }
        None
    }

    /// Tells whether the head takes so many arguments.
    ///
    /// Source: SMT-LIB 2.6, theories Core and Reals.
    #[tactic(auto, unfolding(crate::specs::TheoryHeads::rule_of))]
    pub fn takes_count(self, count: usize) -> bool
        ensures { result ≡ takes_count (rule_of self) count }
    {
        match self {
            TheoryHead::True | TheoryHead::False => count == 0,
            TheoryHead::Not => count == 1,
            TheoryHead::And
            | TheoryHead::Or
            | TheoryHead::Minus
            | TheoryHead::Plus
            | TheoryHead::Times => 1 <= count,
            TheoryHead::Ite => count == 3,
            _ => 2 <= count,
        }
    }

    /// Tells whether the head has that name.
    fn is_named(self, name: &[u8]) -> bool
        ensures { result ≡ bytes_eq (theory_name self) name.now }
    {
        self.name() == name
    }
}

/// Lends the name of a head of terms, without bars: of a declared symbol its own, and of a number or a parameter no bytes.
///
/// Source: SMT-LIB 2.6, theories Core and Reals.
pub fn head_name(table: &TermTable, head: Head) -> &[u8]
    requires { HasHead table.now head }
    ensures { result.now ≡ head_name (head_meant table.now head) }
{
    match head {
        Head::True => TheoryHead::True.name(),
        Head::False => TheoryHead::False.name(),
        Head::Not => TheoryHead::Not.name(),
        Head::And => TheoryHead::And.name(),
        Head::Or => TheoryHead::Or.name(),
        Head::Xor => TheoryHead::Xor.name(),
        Head::Implies => TheoryHead::Implies.name(),
        Head::Equal => TheoryHead::Equal.name(),
        Head::Ite => TheoryHead::Ite.name(),
        Head::Minus => TheoryHead::Minus.name(),
        Head::Plus => TheoryHead::Plus.name(),
        Head::Times => TheoryHead::Times.name(),
        Head::Divide => TheoryHead::Divide.name(),
        Head::Less => TheoryHead::Less.name(),
        Head::AtMost => TheoryHead::AtMost.name(),
        Head::Literal(_) => b"",
        Head::Apply(symbol) => table.symbols().name(symbol),
        Head::Parameter(_, _) => b"",
    }
}
