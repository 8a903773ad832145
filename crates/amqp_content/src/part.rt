//! Commands of which frames are missing.
ghost use Rattle.std.specs.Prelude.{◌≡◌, ◌==◌, ℕ, List, length, option_map, IfOk, IfSome, OnOk, OnErr};
ghost use Rattle.amqp_props.specs.declared.properties.Properties.{Properties};
ghost use Rattle.amqp_props.specs.ContentHeader.{AreShort};
ghost use Rattle.amqp_methods.specs.View.{call_of};
ghost use Rattle.amqp_content.specs.Steps.{Gives, has_content, received_at, opened_at, with_octets, with_frame, is_whole, content_of, whole};
ghost use Rattle.amqp_content.specs.View.{received_of, open_of, whole_of, IsWritable};

use crate::command::Command;
use crate::fault::ContentFault;
use amqp_frames::Frame;
use amqp_methods::{Method, read_method};
use amqp_props::{Properties, read_header};
use std::alloc::Global;
use std::marker::Model;

/// The most octets of a body.
pub const MAX_BODY: u64 = 16_777_216;

/// The type of a method frame (AMQP 0-9-1, section 4.2.3).
const METHOD_FRAME: u8 = 1;

/// The type of a content header frame.
const HEADER_FRAME: u8 = 2;

/// The type of a content body frame.
const BODY_FRAME: u8 = 3;

/// The content of a command, as far as it came.
#[derive(Drop)]
pub(crate) struct Content {
    /// The size of the body that the content header announces.
    pub size: u64,
    pub props: Properties,
    pub body: Vec<u8>,
}

/// A command, as far as it came. Its method and its properties can be written again.
#[derive(Drop)]
pub(crate) struct Part {
    method: Method,
    /// `None` until the content header comes.
    content: Option<Content>,
}

impl Model for Part {
    ghost use Rattle.std.specs.Prelude.{Option, IfSome};
    ghost use Rattle.std.specs.Coded.{codes};
    ghost use Rattle.amqp_props.specs.Codes.{coded_pairs};
    ghost use Rattle.amqp_props.specs.ContentHeader.{AreShort};
    ghost use Rattle.amqp_methods.specs.contracts.method.Method as methods;
    ghost use Rattle.amqp_methods.specs.declared.method.Method.{Method};
    ghost use Rattle.amqp_methods.specs.Methods.{FitArguments};
    ghost use Rattle.amqp_methods.specs.View.{call_of};
    ghost use Rattle.amqp_content.specs.declared.part.Content.{Content};

    ghost Value = { Method × Option Content };

    ghost coded = { Prim.hlevel (codes, methods.the_row.coded, coded_pairs) };

    ghost view = { λ p. (p.method, p.content) };

    ghost invariant = { λ p. FitArguments (call_of p.method) × IfSome p.content (λ content. AreShort content.props) };
}

/// Whether the method carries content.
pub(crate) fn has_content(method: &Method) -> bool
    ensures { result ≡ has_content (call_of method.now) }
{
    match method {
        Method::BasicPublish { .. } => true,
        Method::BasicReturn { .. } => true,
        Method::BasicDeliver { .. } => true,
        Method::BasicGetOk { .. } => true,
        _ => false,
    }
}

/// The content that a content header begins.
#[tactic(auto, unfolding(crate::specs::Steps::received_at, crate::specs::Headers::header_of))]
fn begin_content(alloc: Global, payload: &[u8]) -> Result<Content, ContentFault>
    ensures gives { Gives received_of result (received_at payload.now) }
    ensures short { IfOk result (λ content. AreShort content.props) }
{
    let (size, props) = read_header(alloc, payload)?;
    if size > MAX_BODY {
        return Err(ContentFault::Size(size));
    }
    Ok(Content {
        size,
        props,
        body: Vec::new(alloc),
    })
}

/// Properties and body.
fn into_content(content: Option<Content>) -> Option<(Properties, Vec<u8>)>
    ensures parts { option_map {U = Properties × List ℕ} (λ x. (x.0, x.1.items)) result
        ≡ content_of (option_map received_of content) }
    ensures short { IfSome content (λ content. AreShort content.props) → IfSome result (λ x. AreShort x.0) }
{
    match content {
        Some(content) => Some((content.props, content.body)),
        None => None,
    }
}

impl Content {
    /// Adds the octets of a body frame. An error changes nothing.
    #[tactic(auto, unfolding(crate::specs::Steps::with_octets))]
    fn add(&mut self, octets: &[u8]) -> Result<(), ContentFault>
        ensures gives { Gives (λ _. received_of self.new) result (with_octets (received_of self.old) octets.now) }
        ensures err { OnErr result (received_of self.new ≡ received_of self.old) }
        ensures props { self.new.props ≡ self.old.props }
    {
        let sum = (self.body.len() + octets.len()) as u64;
        if sum > self.size {
            return Err(ContentFault::Size(sum));
        }
        self.body.extend_from_slice(octets)?;
        Ok(())
    }

    /// Whether no octet of the body is missing.
    fn is_full(&self) -> bool
        ensures { result ≡ (length self.now.body.items == self.now.size) }
    {
        self.body.len() as u64 == self.size
    }
}

impl Part {
    /// The part that a channel's first frame begins.
    #[tactic(auto, unfolding(crate::specs::Steps::opened_at))]
    pub fn begin(alloc: Global, frame: &Frame) -> Result<Part, ContentFault>
        ensures { Gives open_of result (opened_at frame.now) }
    {
        if frame.kind != METHOD_FRAME {
            return Err(ContentFault::Unexpected(frame.kind));
        }
        let method = read_method(alloc, frame.payload.as_slice())?;
        Ok(Part {
            method,
            content: None,
        })
    }

    /// Adds the channel's next frame. An error changes nothing.
    #[tactic(auto, unfolding(crate::specs::Steps::with_frame))]
    pub fn add(&mut self, alloc: Global, frame: &Frame) -> Result<(), ContentFault>
        ensures gives { Gives (λ _. open_of self.new) result (with_frame (open_of self.old) frame.now) }
        ensures err { OnErr result (open_of self.new ≡ open_of self.old) }
    {
        match &mut self.content {
            Some(content) => {
                if frame.kind != BODY_FRAME {
                    return Err(ContentFault::Unexpected(frame.kind));
                }
                content.add(frame.payload.as_slice())
            }
            None => {
                if frame.kind != HEADER_FRAME {
                    return Err(ContentFault::Unexpected(frame.kind));
                }
                self.content = Some(begin_content(alloc, frame.payload.as_slice())?);
                Ok(())
            }
        }
    }

    /// The command on this channel, of which nothing is missing.
    pub fn into_command(self, channel: u16) -> Command
        ensures whole { whole_of result ≡ whole channel (open_of self) }
        ensures writable { IsWritable result }
    {
        let Part { method, content } = self;
        Command {
            channel,
            method,
            content: into_content(content),
        }
    }

    /// Whether no frame is missing.
    #[tactic(auto, unfolding(crate::specs::Steps::is_whole))]
    pub fn is_whole(&self) -> bool
        ensures { result ≡ is_whole (open_of self.now) }
    {
        if !has_content(&self.method) {
            return true;
        }
        match &self.content {
            Some(content) => content.is_full(),
            None => false,
        }
    }
}
