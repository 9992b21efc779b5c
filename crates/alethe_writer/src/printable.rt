//! What a table of terms and a log over it have for printing.

ghost use Rattle.std.specs.Prelude.{ℕ, ◌<◌, List, length, Contains};
ghost use Rattle.spec_sorts.specs.Terms.{Symbol, Term};
ghost use Rattle.spec_sorts.specs.Signatures.{Signature, symbols_in};
ghost use Rattle.term_core.specs.Tables.{TableView};
ghost use Rattle.proof_log.specs.Logs.{Logged, derivation_in, IsLogOf};
ghost use Rattle.spec_proof_texts.specs.Plans.{IsPrinted};
ghost use Rattle.spec_proof_texts.specs.Printable.{ArePrintable, AllConcludeOver, IsReadable};
ghost use Rattle.spec_proof_texts.specs.ReadBack.{AreScriptNames};

use term_core::TermTable;

/// States that a table's terms can be printed in their order for a clause of a log. The table's symbols are those of a script's
/// signature, and each term that the clause needs can be read. It computes nothing.
pub fn terms_are_printable(table: &TermTable)
    ensures { (g : Signature) (log : List Logged) (n : ℕ) → AreScriptNames g
        → ((f : Symbol) → Contains table.now.symbols f → Contains (symbols_in g) f)
        → IsLogOf table.now log → n < length log
        → ((u : Term) → IsPrinted (derivation_in table.now log) n u → IsReadable u)
        → ArePrintable g table.now.terms (derivation_in table.now log) n }
{
    table.ids_are_unique();
    table.arguments_come_first();
    spec_proof_texts::laws::well_sorted_terms_are_printable();
}

/// States that what a log says over a table is over the table's terms. It computes nothing.
pub fn logs_are_over_their_terms()
    ensures { (t : TableView) (log : List Logged) → IsLogOf t log → AllConcludeOver t.terms (derivation_in t log) }
{
    spec_proof_texts::laws::numbers_are_given();
}
