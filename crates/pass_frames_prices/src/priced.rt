//! Prices that pay for frames: each step of a coroutine, and of its caller, pays for the steps of the framed form.

ghost use Rattle.std.specs.Prelude.{◌≡◌, ◌<◌, ◌≤◌, ◌+◌, ◌-◌, ◌*◌, ℕ, false, length, None, Some, slice_get, true};
ghost use Rattle.std.specs.Prelude.{◌&&◌, ◌==◌, if◌then◌else◌};
ghost use Rattle.pass_frames_proof.specs.flow_solver.Paths.{IsListed};
ghost use Rattle.pass_frames_proof.specs.ir_model.Names.{function_at, position_of};
ghost use Rattle.pass_frames_proof.specs.ir_model.declared.instr.Instr.{Instr};
ghost use Rattle.pass_frames_proof.specs.ir_model.declared.module.Function.{Function};
ghost use Rattle.pass_frames_proof.specs.ir_model.declared.module.Module.{Module};
ghost use Rattle.pass_frames_proof.specs.ir_paths.Paths.{targets};
ghost use Rattle.pass_frames_proof.specs.pass_early.Early.{early_module};
ghost use Rattle.pass_frames_proof.specs.Costs.{allocas_before, slot_cost};
ghost use Rattle.pass_frames_prices.specs.FramePrices.{AreWithin, ComesBehindOne, IsAfforded, IsWithin, coroutine_price, credit};
ghost use Rattle.pass_frames_prices.specs.FramePrices.{first_flagged, frame_prices, frames_factor, full_price, left_at};
ghost use Rattle.pass_frames_proof.specs.Framings.{IsFraming};
ghost use Rattle.pass_frames_proof.specs.Meaning.{step_cost};
ghost use Rattle.pass_frames_prices.specs.Numbers.{most_names};
ghost use Rattle.pass_frames_proof.specs.Passes.{block_at};
ghost use Rattle.pass_frames_proof.specs.Places.{Framing, edged, instrs_at, is_return};
ghost use Rattle.pass_frames_proof.specs.Related.{AreBuilt, Building, is_coroutine};
ghost use Rattle.pass_frames_proof.specs.Stepping.{AreGiven};
ghost use Rattle.pass_frames_proof.specs.pass_renewed_proof.Prices.{renewed_price, slots_in};
ghost use Rattle.pass_frames_proof.specs.pass_renewed_proof.Renewed.{Flags, RenewedGiven};
ghost use Rattle.pass_frames_proof.specs.rule_laws.frames.rows.Returns.{HaveOwnReturns};
ghost use Rattle.pass_frames_proof.specs.rule_types.Signatures.{first_otherwise};
ghost use Rattle.pass_frames_proof.specs.run_agreement.Costs.{cost_at};
ghost use Rattle.pass_frames_proof.specs.run_agreement.Factor.{most_operands_of_functions, most_phis_of_functions};
ghost use Rattle.pass_frames_proof.specs.run_agreement.Factor.{size_factor};
ghost use Rattle.pass_frames_proof.specs.run_agreement.Machines.{Machine, state_at};
ghost use Rattle.pass_frames_proof.specs.run_source.declared.state.State.{State};

/// Each step's price is what it costs at least, in each state in which a return comes back behind a call. Blocks on resume
/// and destroy edges are jumps alone, which the pass of edges gives.
pub fn prices_pay_for_frames()
    ensures { (b : Building) (g : RenewedGiven) → AreGiven b g
        → ((func : ℕ) → is_coroutine b func ≡ true → HaveOwnReturns (edged (b.framing func)))
        → (names operands : ℕ) → AreWithin b names operands → (s : State) → ComesBehindOne b s.below
        → step_cost b g s s.top.mode
        ≤ renewed_price (frame_prices b g.flags g.given.code names operands) g.given s }
{}

/// The names of the function that has most, and the step factor's operands, bound those of each coroutine with written
/// saves and with blocks on edges. They are no more than what the step factor counts, by rule Y2: calls of `coro.id` and
/// `coro.save` give tokens.
pub fn most_names_bound_coroutines()
    ensures within { (b : Building) (m : Module) → AreBuilt b → b.code ≡ early_module m
        → AreWithin b (most_names m.functions)
        (most_operands_of_functions m.functions + most_phis_of_functions m.functions) }
    ensures price { (m : Module)
        → full_price (most_names m.functions)
        (most_operands_of_functions m.functions + most_phis_of_functions m.functions) ≡ 4 * frames_factor m }
    ensures less { (m : Module)
        → ((k : ℕ) (f : Function) → slice_get m.functions k ≡ Some f → first_otherwise m k f ≡ None)
        → frames_factor m ≤ size_factor m }
{}

/// A jump from a block on a resume or destroy edge leads to no such block: a suspend's block alone leads to one.
pub fn returns_lead_to_no_returns()
    ensures { (x : Framing) → IsFraming x → HaveOwnReturns (edged x) → (k label : ℕ)
        → slice_get (edged x).blocks k ≡ Some (block_at (edged x) k)
        → IsListed label (targets (block_at (edged x) k).term) → is_return x k ≡ true
        → is_return x (position_of (edged x) label) ≡ false }
{}

/// A resume with all slots that it makes anew costs what an average step may, less a credit.
pub fn resumes_leave_credit()
    ensures { (x : Framing) → IsFraming x → (names operands : ℕ) → IsWithin names operands x
        → (code : Module) (func : ℕ) → function_at code func ≡ edged x
        → (flags : Flags)
        → 3 + operands + allocas_before x (first_flagged flags code func 0)
        + slots_in (λ k. slot_cost x k (first_flagged flags code func (k + 1))) (flags func)
        (slice_get (function_at code func).blocks 0) ≤ full_price names operands - credit names }
{}

/// The price of a jump, and the credit where it leads to a block on a resume or destroy edge, are at most what is full
/// and what is left in front of it.
pub fn jumps_are_afforded()
    ensures { (x : Framing) → IsFraming x → HaveOwnReturns (edged x) → (names operands k label : ℕ)
        → slice_get (edged x).blocks k ≡ Some (block_at (edged x) k)
        → IsListed label (targets (block_at (edged x) k).term)
        → coroutine_price (full_price names operands) (credit names) x k (length (instrs_at x k))
        + (if is_return x (position_of (edged x) label) then credit names else 0)
        ≤ full_price names operands + (if is_return x k && (length (instrs_at x k) == 0) then credit names else 0) }
{}

/// The price of a place, where no coroutine is resumed, is at most what is full and what is left there.
pub fn places_cost_what_is_left()
    ensures { (b : Building) (flags : Flags) (code : Module) (names operands : ℕ) (s : State)
        → (frame_prices b flags code names operands).step s.top.func s.top.block s.top.at
        ≤ full_price names operands + left_at b names s }
{}

/// Where each step is afforded by the full price and what is left, n steps from a start at which nothing is left cost
/// at most n times the full price.
pub fn afforded_runs_are_paid()
    ensures { (a : Machine State) (full : ℕ) (left price : State → ℕ) → left a.start ≡ 0 → (n : ℕ)
        → ((k : ℕ) → k < n → IsAfforded full left price (state_at a k) (state_at a (k + 1)))
        → cost_at a price n ≤ full * n }
{}
