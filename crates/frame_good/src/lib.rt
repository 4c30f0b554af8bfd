//! What is used of the layouts of frames, and that the layouts by conflicts and the plain ones have it.
#![tactic(auto)]

ghost use Rattle.std.specs.Prelude.{◌≡◌, ℕ, Bool, IsTrue, List, Ok, Some, slice_get};
ghost use Rattle.frame_contents.specs.Frames.{AreLayouts};
ghost use Rattle.frame_placing.specs.Placed.{Always, IsPair};
ghost use Rattle.frame_layout.specs.Layouts.{IsLaidOut, IsLaidOutPlain};
ghost use Rattle.frame_layout.specs.declared.layout.Field.{Field as TheField};
ghost use Rattle.frame_layout.specs.declared.layout.Layout.{Layout as TheLayout};
ghost use Rattle.frame_layout.specs.declared.layout.Layouts.{Layouts as TheLayouts};
ghost use Rattle.frame_good.specs.Frames.{AreGood, HasFitFields, IsFound};
ghost use Rattle.frame_good.specs.Good.{AreFit, IsGoodLayout};
ghost use Rattle.frame_good.specs.Worked.{worked_fields, worked_layout};
ghost use Rattle.ir_model.specs.declared.module.Function.{Function as TheFunction};
ghost use Rattle.ir_model.specs.declared.module.Module.{Module as TheModule};

/// A layout by pairs of fields that conflict is good, by these conflicts.
pub fn layouts_by_conflicts_are_good()
    ensures { (coroutine : ℕ) (fields : List TheField) (conflicts : List (ℕ × ℕ)) (l : TheLayout) → AreFit fields
        → IsLaidOut coroutine fields conflicts (Ok l) → IsGoodLayout coroutine fields (IsPair conflicts) l }
{}

/// A plain layout is good, and in it all fields are apart.
pub fn plain_layouts_are_good()
    ensures { (coroutine : ℕ) (fields : List TheField) (l : TheLayout) → AreFit fields
        → IsLaidOutPlain coroutine fields (Ok l) → IsGoodLayout coroutine fields Always l }
{}

/// So the layouts of a module's coroutines are good where fields are fit: the shared ones and the plain ones.
pub fn layouts_of_modules_are_good()
    ensures { (m : TheModule) (share : Bool) (layouts : TheLayouts)
        → ((k : ℕ) (f : TheFunction) → slice_get m.functions k ≡ Some f → IsTrue f.coroutine → HasFitFields m f)
        → AreLayouts m share (Ok layouts) → AreGood m 0 m.functions layouts.coroutines }
{}

/// Where layouts are good, a coroutine's layout is found by its number.
pub fn good_layouts_are_found()
    ensures { (m : TheModule) (layouts : List TheLayout) (k : ℕ) (f : TheFunction) → AreGood m 0 m.functions layouts
        → slice_get m.functions k ≡ Some f → IsTrue f.coroutine → IsFound m k f layouts }
{}

/// Of two layouts of the same fit fields, which conflict, one is good, and the other, in which two share bytes, isn't.
/// The first is good for the coroutine that it names, and for no other.
pub fn shared_bytes_tell_layouts_apart()
    ensures fit { AreFit worked_fields }
    ensures good { IsGoodLayout 0 worked_fields Always (worked_layout 20) }
    ensures other { IsGoodLayout 0 worked_fields Always (worked_layout 18) → ⊥ }
    ensures elsewhere { IsGoodLayout 1 worked_fields Always (worked_layout 20) → ⊥ }
{}
