//! What holds of all operations that are planned, and of their bounds.

ghost use Rattle.std.specs.Prelude.{◌≡◌, ℕ, false};
ghost use Rattle.cost_num.specs.declared.Cost.{Cost};
ghost use Rattle.document_reader.specs.declared.trees.Operation.{Operation};
ghost use Rattle.response_model.specs.Cost.{Part, types, fields};
ghost use Rattle.plan_model.specs.SelectedFields.{Setting};
ghost use Rattle.plan_model.specs.Operations.{IsPlannedWell};
ghost use Rattle.plan_model.specs.Sound.{IsOfSchema};
ghost use Rattle.plan_table.specs.declared.table.Plan.{Plan};
ghost use Rattle.static_cost.specs.declared.too_costly.TooCostly.{TooCostly};
ghost use Rattle.static_cost.specs.TableBound.{IsTableBound, NamesExceedingOf};
ghost use Rattle.plan_table.specs.TableBounds.{IsWithinCap};
ghost use Rattle.static_cost.specs.CostBound.{HasSoundPlan, IsWithin, IsPlannedBound, AreOperationBounds, WorstAttains};

/// Of an operation that is planned well, the bound of its plan is the bound of the operation, where it is within the cap.
pub fn bounds_of_operations()
    ensures of { (e : Setting) (root undeclared : ℕ) (o : Operation) (bound : Cost) → IsPlannedWell e root o → IsOfSchema undeclared e
        → IsPlannedBound e root o bound → IsWithin bound → AreOperationBounds e root o bound }
    ensures only { (e : Setting) (root undeclared : ℕ) (o : Operation) (bound : Cost) → IsPlannedWell e root o → IsOfSchema undeclared e
        → AreOperationBounds e root o bound → IsWithin bound → IsPlannedBound e root o bound }
{}

/// Of an operation that is planned well, by a sound plan, and whose bound is within the cap, the response that is filled for a part of
/// the cost answers the operation, keeps its declared sizes, and costs just what the bound says in this part.
pub fn worst_attains_the_bound()
    ensures { (e : Setting) (root : ℕ) (o : Operation) (bound : Cost) (part : Part) → IsPlannedWell e root o → HasSoundPlan e root o
        → WorstAttains e root o part bound }
{}

/// Where a bound within the cap was found, or a part isn't named as exceeding it, no response exceeds the cap in that part.
pub fn bounded_parts()
    ensures found { (p : Plan) (part : Part) (cost : Cost) → IsTableBound p cost → IsWithin cost → IsWithinCap p part }
    ensures types { (p : Plan) (fault : TooCostly) → NamesExceedingOf p fault → fault.types ≡ false → IsWithinCap p types }
    ensures fields { (p : Plan) (fault : TooCostly) → NamesExceedingOf p fault → fault.fields ≡ false → IsWithinCap p fields }
{}
