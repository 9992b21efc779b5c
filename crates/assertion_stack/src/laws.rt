//! What the definitions imply. Each law is a function whose contract is the law; it computes nothing.

ghost use Rattle.std.specs.Prelude.{◌≡◌, ℕ, length};
ghost use Rattle.spec_commands.specs.Stack.{Stack as ScriptStack};
ghost use Rattle.term_core.specs.Tables.{TableView};
ghost use Rattle.term_reader.specs.Building.{KeepsTable};
ghost use Rattle.assertion_stack.specs.declared.stack.Stack.{Stack};
ghost use Rattle.assertion_stack.specs.Stacks.{OverTable, over_table, IsStack};

/// States that a stack stays the stack that it is while its table grows by terms alone.
pub fn stacks_hold_in_grown_tables()
    ensures { (limit : ℕ) (old new : TableView) (x : Stack) (s : ScriptStack) → IsStack limit (over_table old x) s
        → KeepsTable old new → IsStack limit (over_table new x) s }
{}

/// States that a stack says of each asserted term how it is written: `written` has one for each of `current`.
pub fn each_assertion_has_its_text()
    ensures { (limit : ℕ) (x : OverTable) (s : ScriptStack) → IsStack limit x s
        → length x.stack.assertions.written ≡ length x.stack.assertions.ids }
{}
