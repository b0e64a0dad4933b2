//! Signatures of functions.
ghost use Rattle.std.specs.Prelude.{◌≡◌};
ghost use Rattle.relation_terms.specs.Meaning.{sig_of};

use crate::terms::{FnHeader, TysKey};

/// The types of a signature.
#[derive(Clone, Copy, PartialEq, Eq, Hash)]
pub struct FnSigTys<X> {
    /// The inputs, then the output: never empty.
    pub inputs_and_output: TysKey<X>,
}

impl<X: Copy> FnSigTys<X> {
    /// The signature of these types and a header.
    pub fn with(&self, header: FnHeader) -> FnSig<X>
        ensures { result ≡ sig_of self.now header }
    {
        FnSig {
            inputs_and_output: self.inputs_and_output,
            header,
        }
    }
}

/// A signature: its types and its header.
#[derive(Clone, Copy, PartialEq, Eq, Hash)]
pub struct FnSig<X> {
    /// The inputs, then the output: never empty.
    pub inputs_and_output: TysKey<X>,
    pub header: FnHeader,
}
