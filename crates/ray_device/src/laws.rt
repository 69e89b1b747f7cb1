ghost use Rattle.ray_device.specs.Laws.{OutputsAreStorable, PartsAreActions, TracesAreFree};

/// A law: what an action gives in a memory in which it is ready can be stored there. So a store
/// needs only that its piece is still ready, and still gives what was fetched. It does nothing.
pub fn outputs_are_storable()
    ensures { OutputsAreStorable }
{}

/// A law: a device command has as many pieces as actions. It does nothing.
pub fn parts_are_actions()
    ensures { PartsAreActions }
{}

/// A law: a trace that is ready gives what the rays give in the memory as it is, in which each
/// structure is looked up under its id, and it can be traced there. It does nothing.
pub fn traces_are_free()
    ensures { TracesAreFree }
{}
