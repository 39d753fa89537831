//! Makes edits.
use crate::netlist::Netlist;
use crate::netlist::checked::{Checked, CheckedBundle};
use crate::netlist::new_ports::NewPorts;
use crate::record_changes::{NewStimulus, NoStimulus};
use crate::table::Change;
use mp_records::{
    BundleId, BundleRecord, Changes, Edit, EditError, ModuleId, ModuleRecord, Name, NewModule,
    SingleEdit, WireId, WireRecord,
};
use std::alloc::AllocError;

impl Netlist {
    ghost use Rattle.std.specs.Prelude.{◌≡◌, ◌<◌, ◌^◌, Ok, None, IfErr, OnOk, OnErr, All, map, option_map, ℕ};
    ghost use Rattle.mp_records.specs.declared.edit.Edit.TheVariants.{Single};
    ghost use Rattle.mp_records.specs.declared.single_edit.SingleEdit.TheVariants.{AddModule};
    ghost use Rattle.mp_netlist.specs.Circuit.{Circuit, IsCircuit, wire_at, module_at, wire_named, module_named, bundle_named};
    ghost use Rattle.mp_netlist.specs.Edits.{after, after_single, RefusedBy, module_refusal, with_wire_record, with_new_wire, input_of, output_of, new_module, with_new_module, with_new_bundle, with_bundle, with_stimulus, with_wire, with_module};
    ghost use Rattle.mp_netlist.specs.Checked.{Makes, made, bundle_of, module_of_ports};

    /// Makes the edit. The error is the first check that fails; or `OutOfMemory`, which any edit can get, also one that only removes a thing or sets a
    /// delay: what it changes may have to be made anew where other copies of the netlist share it. A batch is made as a whole, or refused for the first
    /// of its edits that is refused: with `InBatch`, or with `OutOfMemory` if memory runs out before that. A refused edit leaves the netlist as it was.
    pub fn apply(&mut self, edit: &Edit) -> Result<(), EditError>
        ensures ok { OnOk result (after self.old edit.now ≡ Ok self.new) }
        ensures refused { IfErr result (RefusedBy edit.now (after self.old edit.now)) }
        ensures err { OnErr result (self.new ≡ self.old) }
    {
        match edit {
            Edit::Single(single) => self.apply_single(single),
            Edit::Batch(batch) => {
                *self = self.after_batch(batch)?;
                Ok(())
            }
        }
    }

    /// Makes an edit of one thing. The errors are those of `apply`.
    pub(crate) fn apply_single(&mut self, edit: &SingleEdit) -> Result<(), EditError>
        ensures ok { OnOk result (after_single self.old edit.now ≡ Ok self.new) }
        ensures refused { IfErr result (RefusedBy (Single edit.now) (after_single self.old edit.now)) }
        ensures err { OnErr result (self.new ≡ self.old) }
    {
        match self.check_single(edit) {
            Ok(checked) => Ok(self.make(checked)?),
            Err(error) => Err(error),
        }
    }

    #[tactic(auto, unfolding(crate::specs::Edits::edited, crate::specs::Edits::refusal))]
    /// Adds a module, as `apply` does for the edit that adds it, with the same errors. It keeps the name and the parameters that it is given.
    pub fn apply_module(&mut self, new: NewModule) -> Result<(), EditError>
        ensures ok { OnOk result (after_single self.old (AddModule new) ≡ Ok self.new) }
        ensures refused { IfErr result (RefusedBy (Single (AddModule new)) (after_single self.old (AddModule new))) }
        ensures err { OnErr result (self.new ≡ self.old) }
    {
        match self.check_module(&new) {
            Ok(ports) => Ok(self.add_module(new, ports)?),
            Err(error) => {
                drop(new);
                Err(error)
            }
        }
    }

    /// Makes a change that was checked. `AllocError` comes if memory runs out.
    pub(crate) fn make(&mut self, checked: Checked<'_>) -> Result<(), AllocError>
        requires { (after : Circuit) × Makes self.old checked after }
        ensures ok { OnOk result (self.new ≡ made self.old checked.entry) }
        ensures err { OnErr result (self.new ≡ self.old) }
    {
        match checked {
            Checked::NewWire { name, width, level } => self.add_wire(name, width, level),
            Checked::NoWire(id) => self.remove_wire(id),
            Checked::Stimulus(id, changes) => self.set_stimulus(id, changes),
            Checked::NoStimulus(id) => self.change_wire(id, NoStimulus),
            Checked::AddedModule(new, ports) => self.copy_module(new, ports),
            Checked::NoModule(id) => self.remove_module(id),
            Checked::Input(id, change) => self.change_module(id, change),
            Checked::InputDelay(id, change) => self.change_module(id, change),
            Checked::Output(id, change) => self.change_module(id, change),
            Checked::Delay(id, change) => self.change_module(id, change),
            Checked::NewBundle(new) => self.add_bundle(new),
            Checked::NoBundle(id) => self.remove_bundle(id),
        }
    }

    fn add_wire(&mut self, name: &Name, width: u32, level: u64) -> Result<(), AllocError>
        requires free { wire_named self.old name.now ≡ None }
        requires form { IsCircuit self.old → IsCircuit (with_new_wire self.old name.now width level) }
        ensures ok { OnOk result (self.new ≡ with_new_wire self.old name.now width level) }
        ensures err { OnErr result (self.new ≡ self.old) }
    {
        let added = WireRecord {
            name: name.clone()?,
            width,
            initial: level,
            stimulus: None,
        };
        self.put_wire(added)
    }

    fn put_wire(&mut self, added: WireRecord) -> Result<(), AllocError>
        requires free { wire_named self.old added.name ≡ None }
        requires fits { IsCircuit self.old → IsCircuit (with_wire_record self.old added) }
        ensures ok { OnOk result (self.new ≡ with_wire_record self.old added) }
        ensures err { OnErr result (self.new ≡ self.old) }
    {
        let number = self.wires.len() as u32;
        self.modules.add_wire(WireId(number))?;
        self.wires.push(added)
    }

    fn remove_wire(&mut self, id: WireId) -> Result<(), AllocError>
        requires { IsCircuit self.old → IsCircuit (with_wire self.old id.0 None) }
        ensures ok { OnOk result (self.new ≡ with_wire self.old id.0 None) }
        ensures err { OnErr result (self.new ≡ self.old) }
    {
        self.wires.remove(id.0)
    }

    fn set_stimulus(&mut self, id: WireId, changes: &Changes) -> Result<(), AllocError>
        requires early { All (λ (change : ℕ × ℕ). change.0 < 2 ^ 32) changes.now }
        requires form { IsCircuit self.old → IsCircuit (with_wire self.old id.0 (option_map (with_stimulus changes.now) (wire_at self.old id.0))) }
        ensures ok { OnOk result (self.new ≡ with_wire self.old id.0 (option_map (with_stimulus changes.now) (wire_at self.old id.0))) }
        ensures err { OnErr result (self.new ≡ self.old) }
    {
        let stimulus = changes.to_stimulus(self.wires.allocator())?;
        self.change_wire(id, NewStimulus { stimulus })
    }

    fn change_wire<C: Change<WireRecord>>(
        &mut self,
        id: WireId,
        change: C,
    ) -> Result<(), AllocError>
        requires { IsCircuit self.old → IsCircuit (with_wire self.old id.0 (option_map (C.changed change) (wire_at self.old id.0))) }
        ensures ok { OnOk result (self.new ≡ with_wire self.old id.0 (option_map (C.changed change) (wire_at self.old id.0))) }
        ensures err { OnErr result (self.new ≡ self.old) }
    {
        self.wires.change(id.0, change)
    }

    /// Adds a copy of a module at these ports.
    fn copy_module(&mut self, new: &NewModule, ports: NewPorts) -> Result<(), AllocError>
        requires free { module_named self.old new.now.name ≡ None }
        requires form { IsCircuit self.old → IsCircuit (with_new_module self.old (module_of_ports new.now ports)) }
        ensures ok { OnOk result (self.new ≡ with_new_module self.old (module_of_ports new.now ports)) }
        ensures err { OnErr result (self.new ≡ self.old) }
    {
        let added = ModuleRecord {
            name: new.name.clone()?,
            kind: new.kind,
            params: new.params.clone()?,
            inputs: ports.inputs,
            outputs: ports.outputs,
        };
        self.put_module(added)
    }

    fn add_module(&mut self, new: NewModule, ports: NewPorts) -> Result<(), AllocError>
        requires allowed { module_refusal self.old new ≡ None }
        requires inputs { ports.inputs ≡ map (input_of self.old) new.inputs }
        requires outputs { ports.outputs ≡ map (output_of self.old) new.outputs }
        ensures ok { OnOk result (self.new ≡ with_new_module self.old (new_module self.old new)) }
        ensures err { OnErr result (self.new ≡ self.old) }
    {
        let NewModule {
            name,
            kind,
            params,
            inputs,
            outputs,
        } = new;
        drop(inputs);
        drop(outputs);
        self.put_module(ModuleRecord {
            name,
            kind,
            params,
            inputs: ports.inputs,
            outputs: ports.outputs,
        })
    }

    fn put_module(&mut self, added: ModuleRecord) -> Result<(), AllocError>
        requires free { module_named self.old added.name ≡ None }
        requires fits { IsCircuit self.old → IsCircuit (with_new_module self.old added) }
        ensures ok { OnOk result (self.new ≡ with_new_module self.old added) }
        ensures err { OnErr result (self.new ≡ self.old) }
    {
        self.modules.push(added)
    }

    fn remove_module(&mut self, id: ModuleId) -> Result<(), AllocError>
        requires { IsCircuit self.old → IsCircuit (with_module self.old id.0 None) }
        ensures ok { OnOk result (self.new ≡ with_module self.old id.0 None) }
        ensures err { OnErr result (self.new ≡ self.old) }
    {
        self.modules.remove(id.0)
    }

    fn change_module<C: Change<ModuleRecord>>(
        &mut self,
        id: ModuleId,
        change: C,
    ) -> Result<(), AllocError>
        requires { IsCircuit self.old → IsCircuit (with_module self.old id.0 (option_map (C.changed change) (module_at self.old id.0))) }
        ensures ok { OnOk result (self.new ≡ with_module self.old id.0 (option_map (C.changed change) (module_at self.old id.0))) }
        ensures err { OnErr result (self.new ≡ self.old) }
    {
        self.modules.change(id.0, change)
    }

    fn add_bundle(&mut self, new: CheckedBundle<'_>) -> Result<(), AllocError>
        requires free { bundle_named self.old new.name.now ≡ None }
        requires form { IsCircuit self.old → IsCircuit (with_new_bundle self.old (bundle_of new)) }
        ensures ok { OnOk result (self.new ≡ with_new_bundle self.old (bundle_of new.entry)) }
        ensures err { OnErr result (self.new ≡ self.old) }
    {
        let added = BundleRecord {
            name: new.name.clone()?,
            request: new.request,
            acknowledge: new.acknowledge,
            payload: new.payload,
            setup: new.setup,
        };
        self.put_bundle(added)
    }

    fn put_bundle(&mut self, added: BundleRecord) -> Result<(), AllocError>
        requires free { bundle_named self.old added.name ≡ None }
        requires fits { IsCircuit self.old → IsCircuit (with_new_bundle self.old added) }
        ensures ok { OnOk result (self.new ≡ with_new_bundle self.old added) }
        ensures err { OnErr result (self.new ≡ self.old) }
    {
        self.bundles.push(added)
    }

    fn remove_bundle(&mut self, id: BundleId) -> Result<(), AllocError>
        requires { IsCircuit self.old → IsCircuit (with_bundle self.old id.0 None) }
        ensures ok { OnOk result (self.new ≡ with_bundle self.old id.0 None) }
        ensures err { OnErr result (self.new ≡ self.old) }
    {
        self.bundles.remove(id.0)
    }
}
