// A law of the records, for what reads and writes their fields. A call does nothing, and a proof after it knows the law.

ghost use Rattle.qsr_layout.specs.Fields.{IsChecked};
ghost use Rattle.qsr_layout.specs.declared.records.TheConstants.{SLOT_HEAD, STORE_HEAD};

/// Each record of the store is a checked layout.
pub const fn records_are_checked()
    ensures store_head { IsChecked STORE_HEAD.fields }
    ensures slot_head { IsChecked SLOT_HEAD.fields }
{}
