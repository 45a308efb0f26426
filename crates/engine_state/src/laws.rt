// What changes of the heap, of links and of choice points do to the state that an engine is.
ghost use Rattle.std.specs.Prelude.{ℕ};
ghost use Rattle.prog_data.specs.declared.programs.Program.{Program};
ghost use Rattle.machine_model.specs.Tests.{Tests};
ghost use Rattle.engine_state.specs.Fewest.{FewestFalls};
ghost use Rattle.engine_state.specs.Moments.{MomentsStay, MomentsGive};
ghost use Rattle.engine_state.specs.MomentsWithin.{MomentsWithin};
ghost use Rattle.engine_state.specs.Notes.{NotesStay};
ghost use Rattle.engine_state.specs.Laws.{ChoicesStay, FramesFollow, FreesAreNew, MarksAreFound, NewPoints, PointsCut, PointsExit, TermsAreBelow};

/// Later changes of the heap, its undoing down to a choice point and new links leave the choices as they are.
pub fn choices_law()
    ensures { ChoicesStay }
{}

/// Values that are instances of others make the whole frame an instance.
pub fn bound_law()
    ensures { FramesFollow }
{}

/// Free cells change no frame, and are the new variables of a clause.
pub fn entered_law()
    ensures { FreesAreNew }
{}

/// A new choice point stands for choices of the current terms.
pub fn new_point_law()
    ensures { NewPoints }
{}

/// Choices are cut as the choice points are that stand for them.
pub fn cut_law()
    ensures { PointsCut }
{}

/// The number of steps that are left of a run falls by one at each step.
pub fn steps_law()
    ensures { (what : Tests) (program : Program) (bound : ℕ) → FewestFalls what program bound }
{}

/// Notes that are added behind those that are held leave the tasks and the alternatives that use these.
pub fn notes_law()
    ensures { NotesStay }
{}

/// A mark is exited as the choice point is that stands for it, and the others keep what they kept.
pub fn exit_law()
    ensures { PointsExit }
{}

/// What there is of a mark among the choices is what the choice point at its height has.
pub fn mark_law()
    ensures { MarksAreFound }
{}

/// The variables of a place's term are cells.
pub fn below_law()
    ensures { TermsAreBelow }
{}

/// The cells, links and notes that links and choice points name are there, now and at the moment of each choice point.
pub fn moments_law()
    ensures { (program : Program) → MomentsStay program }
{}

/// Where links and choice points have their moments, trails, links and notes are in order, and choices rise.
pub fn moments_give_law()
    ensures { (program : Program) → MomentsGive program }
{}

/// What links and choice points that have their moments name are cells that were there then.
pub fn moments_within_law()
    ensures { (program : Program) → MomentsWithin program }
{}
