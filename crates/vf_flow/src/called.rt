//! What is called by a number in a unit, as the core of whole programs has it.

ghost use Rattle.std.specs.Prelude.{◌≡◌, ◌<◌, length, map, IfOk, slice_get};
ghost use Rattle.std.specs.Option.{option_copied};
ghost use Rattle.vf_core.specs.Shown.{field_of, identity_of, signature_of, type_of};
ghost use Rattle.vf_steps.specs.Core.{field_tree, identity_at, signature_tree, type_tree};
ghost use Rattle.vf_flow.specs.Named.{identities, naming_of};

use crate::naming::Naming;
use crate::numbers::narrow;
use std::alloc::Global;
use vf_base::{Memory, Sequence, Text};
use vf_core::{Field, Name, Scalar, Signature};
use vf_declared::ctype::CType;
use vf_declared::declaration;
use vf_steps::FieldNumber;

/// The name at an index of a list, and one that stands for no text where there is none.
fn name_at(names: &Sequence<Text>, list: &Sequence<Name>, number: usize) -> Name
    requires { length names.now < 4294967296 }
    ensures { identity_of names.now result ≡ identity_at (identities names.now list.now) number }
{
    match list.get(number) {
        Some(name) => *name,
        None => Name { number: u32::MAX },
    }
}

impl Naming<'_> {
    /// The name of a function.
    pub fn function(&self, number: usize) -> Name
        ensures { identity_of self.now.names.now result ≡ identity_at (naming_of self.now).functions number }
    {
        name_at(self.names, &self.functions, number)
    }

    /// The name of a struct.
    pub fn structure(&self, number: usize) -> Name
        ensures { identity_of self.now.names.now result ≡ identity_at (naming_of self.now).structures number }
    {
        name_at(self.names, &self.structures, number)
    }

    /// The name of a function type.
    pub fn function_type(&self, number: usize) -> Name
        ensures { identity_of self.now.names.now result ≡ identity_at (naming_of self.now).function_types number }
    {
        name_at(self.names, &self.function_types, number)
    }

    /// A field.
    pub fn field(&self, field: FieldNumber) -> Result<Field, Memory>
        ensures { IfOk result (λ f. field_of self.now.names.now f ≡ field_tree (naming_of self.now) field) }
    {
        Ok(Field {
            structure: self.structure(field.structure),
            index: narrow(field.index)?,
        })
    }

    /// A type.
    pub fn scalar(&self, ctype: CType) -> Scalar
        ensures { type_of self.now.names.now result ≡ type_tree (naming_of self.now) ctype }
    {
        match ctype {
            CType::Void => Scalar::Void,
            CType::Integer(of) => Scalar::Integer(of),
            CType::VoidPointer => Scalar::PointerToVoid,
            CType::IntPointer => Scalar::PointerToInt,
            CType::StructPointer(number) => Scalar::PointerToStruct(self.structure(number)),
            CType::FunctionPointer(number) => {
                Scalar::PointerToFunction(self.function_type(number))
            }
            CType::Function(_) => Scalar::PointerToVoid,
        }
    }

    /// Types in order.
    pub fn scalars(
        &self,
        alloc: Global,
        types: &Sequence<CType>,
    ) -> Result<Sequence<Scalar>, Memory>
        ensures { IfOk result (λ ts. map (type_of self.now.names.now) ts ≡ map (type_tree (naming_of self.now)) types.now) }
    {
        let mut scalars = Sequence::new(alloc);
        for ctype in types.as_slice() {
            scalars.push(self.scalar(*ctype))?;
        }
        Ok(scalars)
    }

    /// A signature, and one of nothing where there is none.
    pub fn signature(
        &self,
        alloc: Global,
        signature: Option<&declaration::Signature>,
    ) -> Result<Signature, Memory>
        ensures { IfOk result (λ s. signature_of self.now.names.now s ≡ signature_tree (naming_of self.now) (option_copied signature.entry)) }
    {
        match signature {
            Some(signature) => Ok(Signature {
                gives: self.scalar(signature.result),
                parameters: self.scalars(alloc, &signature.parameters)?,
            }),
            None => Ok(Signature {
                gives: Scalar::Void,
                parameters: Sequence::new(alloc),
            }),
        }
    }

    /// The signature of the function type with a number, and one of nothing where there is no such type.
    pub fn function_type_signature(&self, alloc: Global, number: usize) -> Result<Signature, Memory>
        ensures { IfOk result (λ s. signature_of self.now.names.now s ≡ signature_tree (naming_of self.now) (slice_get (naming_of self.now).signatures number)) }
    {
        self.signature(alloc, self.signatures.get(number))
    }
}
