// What a row sends, and what is wanted of it.
use crate::escapes::append_unescaped;
use crate::expand::{append_expanded, expand};
use crate::fault::Fault;
use crate::lines::{Line, Mark, split_at_byte};
use crate::requests::{
    Kind, append_call, append_request, append_responses, append_upload, append_upload_reply,
};
use jm_base::Bytes;
use std::alloc::Global;

/// A piece of the input that a line gives, and where it and the output that is wanted for it end.
#[derive(Clone, Copy, Debug)]
pub(crate) struct Step {
    pub(crate) line: u64,
    pub(crate) input_end: usize,
    pub(crate) wanted_end: usize,
}

/// The whole input of a row and the whole output that is wanted, with the steps of both, the method
/// of the last call, the responses to it up to here, and how many blobs were uploaded.
#[derive(Drop)]
pub(crate) struct Script<'a> {
    kind: Kind,
    pub(crate) input: Bytes,
    pub(crate) wanted: Bytes,
    pub(crate) steps: Vec<Step>,
    line: u64,
    method: &'a [u8],
    responses: Bytes,
    blobs: u64,
}

// Adds input as it stands.
fn append_input_line(
    alloc: Global,
    kind: Kind,
    out: &mut Bytes,
    line: &Line<'_>,
) -> Result<(), Fault> {
    append_expanded(alloc, out, line.number, line.text)?;
    out.append(kind.line_end())?;
    Ok(())
}

// Adds a text with escapes.
fn append_part(alloc: Global, out: &mut Bytes, line: &Line<'_>) -> Result<(), Fault> {
    let text = expand(alloc, line.number, line.text)?;
    append_unescaped(out, line.number, text.as_slice())
}

impl<'a> Script<'a> {
    pub(crate) fn new(alloc: Global, kind: Kind) -> Script<'a> {
        Script {
            kind,
            input: Bytes::new(alloc),
            wanted: Bytes::new(alloc),
            steps: Vec::new(alloc),
            line: 0,
            method: &[],
            responses: Bytes::new(alloc),
            blobs: 0,
        }
    }

    // Begins the step of a line of input.
    fn begin_step(&mut self, alloc: Global, line: &Line<'a>) -> Result<(), Fault> {
        self.end_step(alloc)?;
        self.method = &[];
        self.line = line.number;
        Ok(())
    }

    /// Ends the last step.
    pub(crate) fn end_step(&mut self, alloc: Global) -> Result<(), Fault> {
        if !self.responses.is_empty() {
            append_responses(
                alloc,
                self.kind,
                &mut self.wanted,
                self.responses.as_slice(),
            )?;
            self.responses.clear();
        }
        self.steps.push(Step {
            line: self.line,
            input_end: self.input.len(),
            wanted_end: self.wanted.len(),
        })?;
        Ok(())
    }

    fn add_request(&mut self, alloc: Global, line: &Line<'a>) -> Result<(), Fault> {
        self.begin_step(alloc, line)?;
        let (method, rest) = split_at_byte(line.text, b' ');
        self.method = method;
        let args = expand(alloc, line.number, rest)?;
        let mut body = Bytes::new(alloc);
        append_call(&mut body, method, args.as_slice())?;
        append_request(alloc, self.kind, &mut self.input, body.as_slice())?;
        Ok(())
    }

    fn add_response(&mut self, alloc: Global, line: &Line<'a>) -> Result<(), Fault> {
        if self.method.is_empty() {
            return Err(Fault::Line(line.number, "a response without a request"));
        }
        let (name, rest) = if line.text.starts_with(b"{") {
            (self.method, line.text)
        } else {
            split_at_byte(line.text, b' ')
        };
        if !self.responses.is_empty() {
            self.responses.append(b",")?;
        }
        self.responses.append(b"[\"")?;
        self.responses.append(name)?;
        self.responses.append(b"\",")?;
        append_expanded(alloc, &mut self.responses, line.number, rest)?;
        self.responses.append(b",\"0\"]")?;
        Ok(())
    }

    fn add_upload(&mut self, alloc: Global, line: &Line<'a>) -> Result<(), Fault> {
        self.begin_step(alloc, line)?;
        let mut blob = Bytes::new(alloc);
        append_part(alloc, &mut blob, line)?;
        self.blobs = self.blobs.saturating_add(1);
        append_upload(alloc, self.kind, &mut self.input, blob.as_slice())?;
        append_upload_reply(alloc, self.kind, &mut self.wanted, self.blobs, blob.len())?;
        Ok(())
    }

    fn add_wanted(&mut self, alloc: Global, line: &Line<'a>) -> Result<(), Fault> {
        if !self.responses.is_empty() {
            return Err(Fault::Line(line.number, "a text after responses"));
        }
        self.method = &[];
        if self.line == 0 {
            self.line = line.number;
        }
        if line.mark == Mark::Wanted {
            append_input_line(alloc, self.kind, &mut self.wanted, line)
        } else {
            append_part(alloc, &mut self.wanted, line)
        }
    }

    /// Adds what a line sends or wants.
    pub(crate) fn add(&mut self, alloc: Global, line: &Line<'a>) -> Result<(), Fault> {
        match line.mark {
            Mark::Input => {
                self.begin_step(alloc, line)?;
                append_input_line(alloc, self.kind, &mut self.input, line)
            }
            Mark::InputPart => {
                self.begin_step(alloc, line)?;
                append_part(alloc, &mut self.input, line)
            }
            Mark::Wanted | Mark::WantedPart => self.add_wanted(alloc, line),
            Mark::Request => self.add_request(alloc, line),
            Mark::Response => self.add_response(alloc, line),
            Mark::Upload => self.add_upload(alloc, line),
            Mark::Name | Mark::Setting => Ok(()),
        }
    }
}
