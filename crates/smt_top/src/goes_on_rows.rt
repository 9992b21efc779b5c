//! Scripts that are run again wherever an allocation is refused.

/// Seven scripts of equality, arithmetic, levels and assumptions, each but the first after a `(reset)` and an option.
pub(crate) const ROWS: &[u8] = b"(assert false)(check-sat)
(reset)(set-option :print-success false)
(declare-sort U 0)(declare-fun f (U) U)(declare-const a U)(declare-const b U)
(assert (= a b))(assert (distinct (f a) (f b)))(check-sat)
(reset)(set-option :print-success false)
(declare-sort U 0)(declare-fun f (U) U)(declare-const a U)
(assert (= (f (f (f a))) a))(assert (= (f (f (f (f (f a))))) a))(assert (not (= (f a) a)))(check-sat)
(reset)(set-option :print-success false)
(declare-fun f (Real) Real)(declare-const x Real)(declare-const y Real)
(assert (<= x y))(assert (<= y x))(assert (distinct (f x) (f y)))(check-sat)
(reset)(set-option :print-success false)
(declare-fun f (Real) Real)(declare-const x Real)(declare-const y Real)
(assert (< 0 x))(assert (< x y))(assert (< y 1))(assert (= (f x) 1))(assert (= (f y) 2))(check-sat)
(reset)(set-option :print-success false)
(push 1)(declare-const c Real)(assert (< c c))(check-sat)
(pop 1)(declare-const c Bool)(assert c)(check-sat)
(reset)(set-option :print-success false)
(declare-const p Bool)
(assert p)
(check-sat-assuming ((not p)))(check-sat)
(check-sat-assuming ((and p p)))
";

/// A script with questions of each kind, over levels that are opened three at a time.
pub(crate) const QUESTIONS: &[u8] = b"(set-option :print-success false)
(set-option :produce-models true)(set-option :produce-proofs true)
(declare-const x Real)(declare-const p Bool)(push 3)
(assert (< 0 x 1))(assert (= (* 3 x) 1))(check-sat)
(get-value (x (+ x 1)))(get-model)
(pop 1)(assert (! p :named holds))(assert (not p))(check-sat)
(get-proof)(get-model)
(pop 2)(check-sat)(get-value (p))(get-assertions)(pop 1)
";
