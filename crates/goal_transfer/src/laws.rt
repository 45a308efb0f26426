// What is so of transfer.
ghost use Rattle.prog_data.specs.declared.programs.Program.{Program};
ghost use Rattle.prog_data.specs.GrammarRange.{IsGrammar};
ghost use Rattle.name_order.specs.Relations.{Order};
ghost use Rattle.prog_data.specs.Programs.{IsProgram};
ghost use Rattle.goal_transfer.specs.Laws.{ValuesMonotone, GoalsMonotone, ClausesMonotone, ExitsChangeNothing, GoalsGive, ClausesGive};

/// Lower values give terms lower values; with lower exits they give a goal a lower outcome; and a lower table gives a clause
/// a lower effect.
pub fn monotone_law()
    ensures values { (o : Order) → ValuesMonotone o }
    ensures goals { (o : Order) → GoalsMonotone o }
    ensures clauses { (program : Program) → ClausesMonotone program }
{
    type_domain::order_law();
    type_domain::monotone_law();
}

/// From values that the analysis keeps a goal gives such values, and by a table so does a clause.
pub fn given_law()
    ensures clauses { (program : Program) → IsProgram program → ClausesGive program }
    ensures goals { (program : Program) → IsGrammar program.grammar → GoalsGive program }
{
    prog_data::program_ranges_law();
    type_domain::given_law();
}

/// The exit that a body is or ends in changes nothing.
pub fn exit_law()
    ensures { (o : Order) → ExitsChangeNothing o }
{}
