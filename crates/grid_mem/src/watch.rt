use crate::{Call, StoreDeed, StoreRecord};
use std::cell::RefCell;
use std::rc::Rc;

// Where a copy of each call of a store goes, if anywhere.
#[derive(Drop)]
pub(crate) struct Watch {
    seen: Option<Rc<RefCell<StoreRecord>>>,
}

impl Watch {
    pub(crate) fn none() -> Watch {
        Watch { seen: None }
    }

    pub(crate) fn on(record: Rc<RefCell<StoreRecord>>) -> Watch {
        Watch { seen: Some(record) }
    }

    // Adds a copy of the call. Where the record is borrowed or memory is short it adds nothing.
    pub(crate) fn note(&self, call: &Call<StoreDeed>) {
        if let Some(seen) = &self.seen {
            if let Ok(mut record) = seen.try_borrow_mut() {
                if let Ok(copy) = call.clone() {
                    let _ = record.calls.push(copy);
                }
            }
        }
    }
}
