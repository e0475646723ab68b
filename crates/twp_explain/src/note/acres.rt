//! The acres of the readings that a note names.
use std::alloc::{AllocError, Global};
use twp_answers::{RunFault, Stop, acres_on};
use twp_plat::{Account, Plat};

/// What acres are reckoned by: the plat, if there is one, and the account.
#[derive(Clone, Copy)]
pub struct Reckoner<'a> {
    pub plat: Option<&'a Plat>,
    pub account: Account,
}

impl Reckoner<'_> {
    /// Appends some words, and the acres of a description between them. Nothing is appended if the
    /// description is of no land on the plat.
    pub(crate) fn write_acres(
        &self,
        alloc: Global,
        before: &str,
        description: &str,
        after: &str,
        out: &mut String,
    ) -> Result<(), AllocError> {
        let Some(hundredths) = self.hundredths_of(alloc, description)? else {
            return Ok(());
        };
        let acres = hundredths / 100;
        let rest = hundredths % 100;
        write!(
            out,
            "{before}{acres}.{}{} acres{after}",
            rest / 10,
            rest % 10
        )
    }

    /// The hundredths of an acre of a description, if it is of land on the plat.
    fn hundredths_of(&self, alloc: Global, description: &str) -> Result<Option<u64>, AllocError> {
        let Some(plat) = self.plat else {
            return Ok(None);
        };
        match acres_on(alloc, plat, description.as_bytes(), self.account) {
            Ok(hundredths) => Ok(Some(hundredths)),
            Err(Stop::Failed(RunFault::Memory)) => Err(AllocError),
            Err(_) => Ok(None),
        }
    }
}
