// The lines of a script.
ghost use Rattle.std.specs.Prelude.{◌≡◌, ◌≤◌, ◌<◌, ◌∷◌, ◌++◌, [], length, slice_get, Some, OnOk, IfErr};
ghost use Rattle.num_fix.specs.Limits.{max_frames};
ghost use Rattle.cut_form.specs.Script.{max_script_lines};
ghost use Rattle.cut_text.specs.Playing.{IsWithinHour, played_frames};
ghost use Rattle.cut_text.specs.Reading.{OneMore, IsWrongAfter};
ghost use Rattle.cut_text.specs.Scripts.{next_line};

use crate::script_reading::line_in;
use crate::{TextRefusal, add};
use cut_form::{MAX_FRAMES, ScriptLine};
use std::alloc::Global;
use std::marker::Model;

/// The most lines.
const MAX_LINES: usize = 100000;

/// Up to 100,000 lines of a script, each with a number of an hour of sound at most.
#[derive(Drop)]
pub struct ScriptLines {
    lines: Vec<ScriptLine>,
}

impl Model for ScriptLines {
    ghost use Rattle.std.specs.Prelude.{◌≤◌, List, All, length};
    ghost use Rattle.cut_form.specs.declared.script.ScriptLine.{ScriptLine};
    ghost use Rattle.cut_form.specs.Script.{max_script_lines};
    ghost use Rattle.cut_text.specs.Playing.{IsWithinHour};

    ghost Value = { List ScriptLine };

    ghost view = { λ s. s.lines.items };

    ghost invariant = { λ s. (length s.lines.items ≤ max_script_lines) × All IsWithinHour s.lines.items };
}

impl ScriptLines {
    /// No lines.
    pub(crate) fn new(alloc: Global) -> ScriptLines
        ensures { result ≡ [] }
    {
        ScriptLines {
            lines: Vec::new(alloc),
        }
    }

    /// Adds the next line of a text.
    pub(crate) fn add_line(&mut self, line: &[u8]) -> Result<(), TextRefusal>
        ensures added { OnOk result (OneMore self.old self.new (next_line self.old line.now)) }
        ensures wrong { IfErr result (λ refusal. IsWrongAfter self.old (next_line self.old line.now) refusal) }
    {
        match line_in(line) {
            Some(said) if self.lines.len() < MAX_LINES => add(&mut self.lines, said),
            _ => Err(TextRefusal::Wrong(self.lines.len() as u32 + 1)),
        }
    }

    /// How many lines there are.
    pub fn len(&self) -> usize
        ensures len { result ≡ length self.now }
        ensures few { result ≤ max_script_lines }
    {
        self.lines.len()
    }

    /// A line, counted from 0.
    pub fn line(&self, index: usize) -> ScriptLine
        requires { index < length self.now }
        ensures line { slice_get self.now index ≡ Some result }
        ensures within { IsWithinHour result }
        ensures few { length self.now ≤ max_script_lines }
    {
        self.lines[index]
    }

    /// How many frames a session plays by these lines.
    pub fn samples(&self) -> u32
        ensures frames { result ≡ played_frames 0 0 self.now }
        ensures few { result ≤ max_frames }
    {
        let mut position = 0;
        let mut frames = 0;
        for line in &self.lines {
            match *line {
                ScriptLine::Seek(at) => position = at,
                ScriptLine::Play(count) => {
                    if position + count <= MAX_FRAMES && frames + count <= MAX_FRAMES {
                        position += count;
                        frames += count;
                    }
                }
                _ => {}
            }
        }
        frames
    }
}
