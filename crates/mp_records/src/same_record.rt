//! Whether two records are the same.
use crate::bundle_record::BundleRecord;
use crate::ids::WireId;
use crate::module_record::ModuleRecord;
use crate::name::Name;
use crate::ports::{Input, Output};
use crate::same::{Same, same_list, same_option};
use crate::stimulus::Stimulus;
use crate::wire_record::WireRecord;

impl Same for Name {
    fn same(&self, other: &Self) -> bool {
        self.as_str() == other.as_str()
    }
}

impl Same for Stimulus {
    fn same(&self, other: &Self) -> bool {
        same_list(self.as_slice(), other.as_slice())
    }
}

impl Same for (u32, u64) {
    fn same(&self, other: &Self) -> bool {
        self.0 == other.0 && self.1 == other.1
    }
}

impl Same for WireId {
    fn same(&self, other: &Self) -> bool {
        self.0 == other.0
    }
}

impl Same for Input {
    fn same(&self, other: &Self) -> bool {
        self.wire.same(&other.wire) && self.delay == other.delay
    }
}

impl Same for Output {
    fn same(&self, other: &Self) -> bool {
        same_option(&self.wire, &other.wire) && self.delay == other.delay
    }
}

impl Same for WireRecord {
    fn same(&self, other: &Self) -> bool {
        self.name.same(&other.name)
            && self.width == other.width
            && self.initial == other.initial
            && same_option(&self.stimulus, &other.stimulus)
    }
}

impl Same for ModuleRecord {
    fn same(&self, other: &Self) -> bool {
        self.name.same(&other.name)
            && self.kind == other.kind
            && self.params.as_slice() == other.params.as_slice()
            && same_list(self.inputs.as_slice(), other.inputs.as_slice())
            && same_list(self.outputs.as_slice(), other.outputs.as_slice())
    }
}

impl Same for BundleRecord {
    fn same(&self, other: &Self) -> bool {
        self.name.same(&other.name)
            && self.request.same(&other.request)
            && self.acknowledge.same(&other.acknowledge)
            && self.payload.same(&other.payload)
            && self.setup == other.setup
    }
}
