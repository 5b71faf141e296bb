//! Names, types and expressions of a unit in a table of names that holds the unit's own.

ghost use Rattle.std.specs.Prelude.{◌≡◌, ◌<◌, length, map, option_map, IfOk};
ghost use Rattle.vf_core.specs.Shown.{expression_of, expressions_of, field_of, identity_of, signature_of, type_of};
ghost use Rattle.vf_program.specs.Renaming.{StandsFrom};

use std::alloc::Global;
use vf_base::{Memory, Sequence, Text};
use vf_core::{Expression, Field, Name, Scalar, Signature};

/// The names of a unit in a table of names, in which the unit's own table stands from an index on.
#[derive(Drop)]
pub struct Renaming<'a> {
    pub own: &'a Sequence<Text>,
    pub all: &'a Sequence<Text>,
    pub first: usize,
    ghost stands: { StandsFrom own.now all.now first },
    ghost few: { length all.now < 4294967296 },
}

impl Renaming<'_> {
    /// A name.
    pub fn name(&self, name: Name) -> Name
        ensures { identity_of self.now.all.now result ≡ identity_of self.now.own.now name }
    {
        let number = name.number as usize;
        if number < self.own.len() {
            Name {
                number: (self.first + number) as u32,
            }
        } else {
            Name { number: u32::MAX }
        }
    }

    /// A type.
    pub fn scalar(&self, scalar: Scalar) -> Scalar
        ensures { type_of self.now.all.now result ≡ type_of self.now.own.now scalar }
    {
        match scalar {
            Scalar::PointerToStruct(name) => Scalar::PointerToStruct(self.name(name)),
            Scalar::PointerToFunction(name) => Scalar::PointerToFunction(self.name(name)),
            other => other,
        }
    }

    /// Types in order.
    pub fn scalars(
        &self,
        alloc: Global,
        scalars: &Sequence<Scalar>,
    ) -> Result<Sequence<Scalar>, Memory>
        ensures { IfOk result (λ ts. map (type_of self.now.all.now) ts ≡ map (type_of self.now.own.now) scalars.now) }
    {
        let mut all = Sequence::new(alloc);
        for scalar in scalars.as_slice() {
            all.push(self.scalar(*scalar))?;
        }
        Ok(all)
    }

    /// A field.
    pub fn field(&self, field: Field) -> Field
        ensures { field_of self.now.all.now result ≡ field_of self.now.own.now field }
    {
        Field {
            structure: self.name(field.structure),
            index: field.index,
        }
    }

    /// A signature.
    pub fn signature(&self, alloc: Global, signature: &Signature) -> Result<Signature, Memory>
        ensures { IfOk result (λ s. signature_of self.now.all.now s ≡ signature_of self.now.own.now signature.now) }
    {
        Ok(Signature {
            gives: self.scalar(signature.gives),
            parameters: self.scalars(alloc, &signature.parameters)?,
        })
    }

    /// An expression.
    pub fn expression(&self, alloc: Global, expression: &Expression) -> Result<Expression, Memory>
        ensures { IfOk result (λ e. expression_of self.now.all.now e ≡ expression_of self.now.own.now expression.now) }
    {
        Ok(match expression {
            Expression::Read { local, place } => Expression::Read {
                local: *local,
                place: *place,
            },
            Expression::Number(number) => Expression::Number(*number),
            Expression::Truth(truth) => Expression::Truth(*truth),
            Expression::Null => Expression::Null,
            Expression::Function(name) => Expression::Function(self.name(*name)),
            Expression::Negate { of, value, place } => Expression::Negate {
                of: *of,
                value: Box::new(alloc, self.expression(alloc, value)?)?,
                place: *place,
            },
            Expression::Arithmetic {
                operator,
                of,
                left,
                right,
                place,
            } => Expression::Arithmetic {
                operator: *operator,
                of: *of,
                left: Box::new(alloc, self.expression(alloc, left)?)?,
                right: Box::new(alloc, self.expression(alloc, right)?)?,
                place: *place,
            },
            Expression::Convert { to, value, place } => Expression::Convert {
                to: *to,
                value: Box::new(alloc, self.expression(alloc, value)?)?,
                place: *place,
            },
        })
    }

    /// Expressions in order.
    pub fn expressions(
        &self,
        alloc: Global,
        expressions: &Sequence<Expression>,
    ) -> Result<Sequence<Expression>, Memory>
        ensures { IfOk result (λ es. expressions_of self.now.all.now es ≡ expressions_of self.now.own.now expressions.now) }
    {
        let mut all = Sequence::new(alloc);
        for expression in expressions.as_slice() {
            all.push(self.expression(alloc, expression)?)?;
        }
        Ok(all)
    }

    /// An expression, where there is one.
    pub fn optional_expression(
        &self,
        alloc: Global,
        expression: &Option<Expression>,
    ) -> Result<Option<Expression>, Memory>
        ensures { IfOk result (λ e. option_map (expression_of self.now.all.now) e ≡ option_map (expression_of self.now.own.now) expression.now) }
    {
        match expression {
            Some(expression) => Ok(Some(self.expression(alloc, expression)?)),
            None => Ok(None),
        }
    }
}
