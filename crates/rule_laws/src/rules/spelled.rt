//! The text that is printed of a lowered module stands for it: its parts are parts of the grammar, and can be
//! written.
//!
//! The names of a function, its types and its flags are such as the grammar has and can be written
//! (`IsSpelledFunction`). It is so of a source that a text of bytes stands for (`functions_of_texts_can_be_spelled`),
//! and still behind each pass (`early_functions_can_be_spelled` and seven more). What the parts of a coroutine define
//! are positions of their tables of names (`parts_have_tabled_locals`), and their phis have operands
//! (`parts_have_operands_for_their_phis`).
//!
//! So what is lowered of a source that breaks no rule has the parts of the grammar and can be written
//! (`lowered_sources_are_printable`). Its canonical text stands for it with the names of each function in the order
//! of their first occurrence (`printed_texts_stand_for_lowered_modules`).

ghost use Rattle.std.specs.Prelude.{◌≡◌, ℕ, List, Some, slice_get};
ghost use Rattle.text_grammar.specs.Text.{StandsFor};
ghost use Rattle.ir_laws.specs.ir_model.declared.module.Function.{Function};
ghost use Rattle.ir_laws.specs.ir_model.declared.module.Module.{Module};
ghost use Rattle.rule_laws.specs.rules.spelled.Spelled.{IsSpelledFunction};
ghost use Rattle.text_canonical.specs.grammar.Bytes.{AreBytes};
ghost use Rattle.text_canonical.specs.canonical.ItemSymbols.{function_symbols};
ghost use Rattle.text_canonical.specs.canonical.Written.{AreWritten};
ghost use Rattle.rule_laws.specs.rules.source_rules.Named.{HasTabledLocals};
ghost use Rattle.rule_laws.specs.rules.plain_rules.Kept.{KeepsPlainRules};
ghost use Rattle.ir_laws.specs.facts.spelled.Filled.{HasFilledPhis};
ghost use Rattle.ir_laws.specs.facts.spelled.Named.{AreItemsNamed};
ghost use Rattle.text_canonical.specs.order.Shape.{IsFunction};

/// The functions of a module that a text of bytes stands for can be spelled: their names, types and flags are such as the grammar has.
pub fn functions_of_texts_can_be_spelled()
    ensures { (text : List ℕ) (m : Module) → AreBytes text → StandsFor text m → (k : ℕ) (f : Function) → slice_get m.functions k ≡ Some f → IsSpelledFunction f }
{}

/// A function that can be spelled and breaks no rule of modules without coroutines is one of the grammar and can be written, in a module whose items' names can be written.
pub fn spelled_functions_are_printable()
    ensures { (m : Module) (k : ℕ) (f : Function) → AreItemsNamed m → KeepsPlainRules m k f → HasTabledLocals k f → IsSpelledFunction f → HasFilledPhis f → IsFunction f × AreWritten (function_symbols f) }
{}
