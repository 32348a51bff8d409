//! A pattern under construction.

ghost use Rattle.std.specs.Prelude.{OnOk, MatchResult};
ghost use Rattle.al_pattern.specs.Reading.{Progress, start, put, reading};
ghost use Rattle.al_pattern.specs.Tokens.{shown, close_group};
ghost use Rattle.al_pattern.specs.Builds.{Builds};
ghost use Rattle.al_pattern.specs.Faults.{Fails};
ghost use Rattle.al_pattern.specs.Patterns.{AreNodesOf};

use crate::fault::{FaultKind, ReadError};
use crate::node::{Node, set_of};
use crate::token::{Quantifier, Token, fault_at, read_token};
use std::alloc::{AllocError, Global};

/// The nodes so far, and where each open group begins.
#[derive(Drop)]
pub struct Builder {
    pub nodes: Vec<Node>,
    pub opens: Vec<usize>,
}

impl Builder {
    pub fn new(alloc: Global) -> Self
        ensures { Builds start result.nodes.items result.opens.items }
    {
        Builder {
            nodes: Vec::new(alloc),
            opens: Vec::new(alloc),
        }
    }

    /// Adds a token.
    pub fn put(&mut self, token: Token) -> Result<(), AllocError>
        requires { (p : Progress) × Builds p self.old.nodes.items self.old.opens.items }
        ensures { OnOk result ((p : Progress) → Builds p self.old.nodes.items self.old.opens.items
            → Builds (put (shown token) p) self.new.nodes.items self.new.opens.items) }
    {
        match token {
            Token::Bar => self.nodes.push(Node::Bar)?,
            Token::Open => {
                self.opens.push(self.nodes.len())?;
                self.nodes.push(Node::Open(Quantifier::Once, 0))?;
            }
            Token::Close(quantifier) => self.close(quantifier)?,
            Token::One(test, quantifier) => {
                self.nodes.push(Node::Test(set_of(&test), quantifier))?;
            }
        }
        Ok(())
    }

    /// Ends the innermost group, and tells its beginning the quantifier and the end.
    fn close(&mut self, quantifier: Quantifier) -> Result<(), AllocError>
        requires { (p : Progress) × Builds p self.old.nodes.items self.old.opens.items }
        ensures { OnOk result ((p : Progress) → Builds p self.old.nodes.items self.old.opens.items
            → Builds (put (close_group quantifier) p) self.new.nodes.items self.new.opens.items) }
    {
        if let Some(open) = self.opens.pop() {
            let inner = self.nodes.len() - open - 1;
            self.nodes[open] = Node::Open(quantifier, inner);
            self.nodes.push(Node::Close(quantifier))?;
        }
        Ok(())
    }
}

/// Compiles a text, or answers its first fault.
pub fn compile(alloc: Global, text: &[u8]) -> Result<Vec<Node>, ReadError>
    ensures { MatchResult result (λ nodes. AreNodesOf nodes.items text.now) (λ e.
        Fails e (reading text.now)) }
{
    let mut builder = Builder::new(alloc);
    let mut count = 0;
    let mut rest = text;
    'tokens: while !rest.is_empty() {
        let (token, after_count, after) = read_token(alloc, builder.opens.len(), count, rest)?;
        builder.put(token)?;
        count = after_count;
        rest = after;
    }
    let Builder { nodes, opens } = builder;
    if !opens.is_empty() {
        return Err(fault_at(FaultKind::Syntax, rest));
    }
    Ok(nodes)
}
