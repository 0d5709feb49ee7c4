//! The code of the top level and of functions begins.
ghost use Rattle.std.specs.Prelude.{◌≡◌, [], IfOk, None, OnOk, true};
ghost use Rattle.grain_builder.specs.Unfinished.{fresh};

use crate::emitter::{Emitter, Signature};
use crate::options::Options;
use crate::pools::PoolBuilder;
use crate::scope::{Local, Scope};
use crate::signatures::Signatures;
use grain_builder::Assembler;
use rhai_errors::CompileError;
use rhai_syntax::Constant;
use std::alloc::Global;
use std::collections::HashMap;

impl Emitter {
    /// No code yet.
    pub fn new(
        alloc: Global,
        options: Options,
        pools: PoolBuilder,
        signatures: Signatures,
        constants: HashMap<u32, Constant>,
    ) -> Emitter
        ensures around { result.scope.around ≡ None }
        ensures code { result.code ≡ record {
          operands = 0;
          level = fresh 0;
          labels = [];
          outers = [];
          pending = 0;
          fixed = true;
          places = [];
        } }
    {
        let Signatures { list, declared } = signatures;
        Emitter {
            alloc,
            options,
            code: Assembler::new(alloc),
            pools,
            scope: Scope::new(alloc),
            signatures: list,
            declared,
            constants,
        }
    }

    /// The code of a function begins, whose variables are its parameters.
    pub fn begin_function(&mut self, index: usize) -> Result<(), CompileError>
        ensures code { OnOk result (self.new.code ≡ self.old.code) }
        ensures around { OnOk result (self.new.scope.around ≡ None) }
    {
        let Some(signature) = self.signatures.get(index) else {
            self.scope = Scope::new(self.alloc);
            return Ok(());
        };
        self.scope = scope_of(self.alloc, signature)?;
        Ok(())
    }
}

/// The variables with which the code of a function begins.
fn scope_of(alloc: Global, signature: &Signature) -> Result<Scope, CompileError>
    ensures { IfOk result (λ s. s.around ≡ None) }
{
    let mut scope = Scope::new(alloc);
    for local in &signature.captured {
        let _slot = scope.declare(*local)?;
    }
    for param in &signature.params {
        let _slot = scope.declare(Local::variable(*param))?;
    }
    Ok(scope)
}
