//! What an operation does to a base is its step.

ghost use Rattle.std.specs.Prelude.{◌↔◌};
ghost use Rattle.mlt_object_kinds.specs.Bases.{Base, Step};
ghost use Rattle.mlt_object_kinds.specs.declared.operation.ObjOp.{ObjOp};
ghost use Rattle.mlt_object_kinds.specs.declared.operation.ObjReply.{ObjReply};
ghost use Rattle.mlt_manager.specs.Objects.{Does};

/// What the main promise says that an operation with its reply does to a base is its step by the tables of its object.
pub fn operations_do_their_steps()
    ensures { (b d : Base) (item : ObjOp × ObjReply) → Does b item d ↔ Step b item d }
{}
