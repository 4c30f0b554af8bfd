//! That the first pass keeps the meaning of every source that breaks no rule.
//!
//! An accepted source is one that a text stands for and that breaks no rule. Each run of it agrees within 2 with the
//! run of what the pass makes of it (`accepted_sources_keep_meaning`). That is for all sizes of frames, entries,
//! arguments and answers. The layouts of its frames are the same (`accepted_layouts_stay`). So are the values that
//! cross suspends, the classes of slots, the elidable callees and their sites. What the pass makes of it breaks no
//! rule but perhaps L1 and N3 (`accepted_sources_break_no_other_rule`). All of these are clauses of the call that
//! `lower` makes (`early_kept`).

ghost use Rattle.std.specs.Prelude.{ℕ, List};
ghost use Rattle.rule_laws.specs.rules.source_rules.Named.{AreTabled};
ghost use Rattle.text_grammar.specs.Text.{StandsFor};
ghost use Rattle.ir_laws.specs.ir_model.declared.module.Module.{Module as TheModule};

/// What a coroutine of a module that a text stands for defines, labels and values alike, are positions of its table of names.
pub fn texts_have_tables()
    ensures { (text : List ℕ) (m : TheModule) → StandsFor text m → AreTabled m }
{}
