//! What the system first refused of a log's file.
use crate::store_error::StoreError;
use std::alloc::{AllocError, Global};
use std::sync::{Arc, OnceLock};

/// The first call of the system that failed on the file of a log, where one has. It is taken from the log before a node
/// has that for itself, and read afterwards: the node answers Device, which names neither the file nor the cause.
#[derive(Drop)]
pub struct FirstFailure {
    shared: Arc<OnceLock<StoreError>>,
}

impl FirstFailure {
    /// No call has failed.
    pub(crate) fn new(alloc: Global) -> Result<FirstFailure, AllocError> {
        let shared = Arc::new(alloc, OnceLock::new())?;
        Ok(FirstFailure { shared })
    }

    /// The same one, for another who asks.
    pub(crate) fn again(&self) -> Result<FirstFailure, AllocError> {
        let shared = self.shared.clone()?;
        Ok(FirstFailure { shared })
    }

    /// Keeps the error, if it is the first one.
    pub(crate) fn note(&self, error: StoreError) {
        let _ = self.shared.try_set(error);
    }

    /// What failed first, if any call has.
    pub fn get(&self) -> Option<StoreError> {
        self.shared.get().copied()
    }
}
