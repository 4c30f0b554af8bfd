//! The first value made in a window and used behind it.

ghost use Rattle.std.specs.Prelude.{◌≡◌, ◌<◌, ◌/◌, ℕ, IfOk, length};
ghost use Rattle.rule_uses.specs.flow_blocks.Edges.{graph_of};
ghost use Rattle.ir_paths.specs.Windows.{end_block as end_block_of};
ghost use Rattle.rule_uses.specs.run_step.Tables.{HasPositions};
ghost use Rattle.rule_window_values.specs.Kept.{IsFirstKept};
ghost use Rattle.rule_window_values.specs.Spans.{AreNumbered, AreSpansOf};
ghost use Rattle.rule_window_values.specs.Told.{AreTold, IsKeptRuleOf, IsToldBy, breaks_value, told_value as told_of_value};

use crate::numbers::{Numbers, numbers_of};
use crate::scan::{taken_blocks, told_blocks};
use crate::spans::{Span, spans_of};
use crate::words::{chunk_of, has_bit};
use ir_base::{BlockId, FuncId, Items, Place, ValueId};
use ir_model::{Block, Function, Instr, Phi, Terminator};
use ir_parts::{FunctionRule, first_part, result_of};
use rule_shape::end_block;
use rule_uses::flow_blocks_library::{Graph, block_graph};
use rule_uses::run_step_library::positions_of;
use std::alloc::{AllocError, Global};

/// The values that are made in a window and used behind it: by the number of each value that is made in a window a bit of
/// the words, which says whether it is used so.
#[derive(Drop)]
pub struct KeptRule {
    pub numbers: Items<Option<usize>>,
    pub words: Items<u64>,
}

impl KeptRule {
    fn told_value(&self, value: ValueId) -> bool
        ensures { result ≡ told_of_value self.now.numbers self.now.words (Some value) }
    {
        match self.numbers.get(value) {
            Some(Some(number)) => has_bit(self.words.as_slice(), *number / 64, *number % 64),
            _ => false,
        }
    }
}

impl FunctionRule for KeptRule {
    ghost breaks = { λ r. breaks_value r.numbers r.words };

    fn breaks_signature(&self, _place: Place, _function: &Function) -> Result<bool, AllocError> {
        Ok(false)
    }

    fn breaks_block(&self, _place: Place, _block: &Block) -> Result<bool, AllocError> {
        Ok(false)
    }

    fn breaks_phi(&self, _place: Place, phi: &Phi) -> Result<bool, AllocError> {
        Ok(self.told_value(phi.result))
    }

    fn breaks_instr(&self, _place: Place, instr: &Instr) -> Result<bool, AllocError> {
        match result_of(instr) {
            None => Ok(false),
            Some(value) => Ok(self.told_value(value)),
        }
    }

    fn breaks_ending(&self, _place: Place, _term: &Terminator) -> Result<bool, AllocError> {
        Ok(false)
    }
}

/// Those of a chunk's questions whose values are made in a window and used behind it.
fn told_word(
    alloc: Global,
    function: &Function,
    graph: &Graph,
    table: &Items<BlockId>,
    end: BlockId,
    all: &Numbers,
    spans: &[Span],
    number: usize,
) -> Result<u64, AllocError>
    requires graph { graph.now ≡ graph_of function.now }
    requires table { HasPositions function.now table.now }
    requires end { end ≡ end_block_of function.now }
    requires spans { AreSpansOf function.now spans.now }
    requires numbers { AreNumbered (length function.now.names) spans.now all.now.numbers all.now.values }
    ensures { IfOk result (λ word. IsToldBy function.now all.now.numbers number word) }
{
    let chunk = chunk_of(alloc, function, graph, end, all, spans, number)?;
    let told = told_blocks(function, table, &all.numbers, &chunk);
    let taken = taken_blocks(function, table, &all.numbers, &chunk);
    Ok(told | taken)
}

/// How many chunks of 64 hold so many.
fn chunks_of(count: usize) -> usize
    ensures { (k : ℕ) → k < count → k / 64 < result }
{
    if count % 64 == 0 {
        count / 64
    } else {
        count / 64 + 1
    }
}

/// Those of so many chunks' questions whose values are made in a window and used behind it.
fn told_words(
    alloc: Global,
    function: &Function,
    all: &Numbers,
    spans: &[Span],
    chunks: usize,
) -> Result<Items<u64>, AllocError>
    requires spans { AreSpansOf function.now spans.now }
    requires numbers { AreNumbered (length function.now.names) spans.now all.now.numbers all.now.values }
    ensures { IfOk result (λ words. AreTold function.now all.now.numbers chunks words) }
{
    let graph = block_graph(alloc, function)?;
    let table = positions_of(alloc, function)?;
    let end = end_block(function);
    let mut words = Items::new(alloc);
    for number in 0..chunks {
        let word = told_word(alloc, function, &graph, &table, end, all, spans, number)?;
        words.push(word)?;
    }
    Ok(words)
}

/// The values that are made in a window and used behind it.
fn rule_of(alloc: Global, function: &Function) -> Result<KeptRule, AllocError>
    ensures { IfOk result (IsKeptRuleOf function.now) }
{
    let spans = spans_of(alloc, function)?;
    let all = numbers_of(alloc, function.names.len(), spans.as_slice())?;
    let chunks = chunks_of(all.values.len());
    let words = told_words(alloc, function, &all, spans.as_slice(), chunks)?;
    Ok(KeptRule {
        numbers: all.numbers,
        words,
    })
}

/// K7: the first value, in order of the text, that is made in the window of a save (by a phi too, whose block's front is in
/// the window) and has a use that a path reaches from the suspend's own resume or destroy edge, with neither the value's
/// definition nor the end block between. A phi's use stands at the end of the block that its label names, on its edge.
#[tactic(auto, using(crate::proofs::Asking::no_first_kept, crate::proofs::Asking::first_kept_is))]
pub fn first_kept_value(
    alloc: Global,
    func: FuncId,
    function: &Function,
) -> Result<Option<Place>, AllocError>
    ensures { IfOk result (λ o. IsFirstKept func function.now o) }
{
    if !function.coroutine {
        return Ok(None);
    }
    let rule = rule_of(alloc, function)?;
    let place = first_part(&rule, func, function)?;
    Ok(place)
}
