ghost use Rattle.std.specs.Prelude.{◌≡◌, IfOk, OnOk, OnErr, Some, is_some};
ghost use Rattle.std.specs.Option.{option_map};
ghost use Rattle.scan_model.specs.ModuleLines as line;
ghost use Rattle.module_lines.specs.Found.{subject_of};
ghost use Rattle.scan_model.specs.Utf8Names.{HaveUtf8Names};
ghost use Rattle.module_lines.specs.Lines.{Takes};

use crate::names::with_part;
use crate::required_names::RequiredNames;
use crate::subject::{Subject, read_subject, statement};
use crate::token_tests::names_header;
use scan_model::{Keyword, ModuleFault, NoMemory, Provided, Record, Text, Tok};
use std::alloc::Global;
use std::marker::Model;

/// A unit's record while its lines are read, and the name of the module that the unit belongs to.
#[derive(Drop)]
pub struct RecordBuilder {
    alloc: Global,
    output: Text,
    source: Text,
    provides: Option<Provided>,
    required: RequiredNames,
    unit: Option<Text>,
}

impl Model for RecordBuilder {
    ghost use Rattle.scan_model.specs.ModuleLines.{Builder};
    ghost use Rattle.module_lines.specs.Builders.{builder_of};

    ghost Value = { Builder };

    ghost view = { λ b. builder_of b.output b.source b.provides b.required b.unit };
}

impl RecordBuilder {
    /// The record of a unit with no module line yet.
    #[tactic(auto, unfolding(scan_model::specs::ModuleLines::new))]
    pub fn new(alloc: Global, output: &Text, source: &Text) -> Result<RecordBuilder, NoMemory>
        ensures { IfOk result (λ builder. builder ≡ line.new output.now source.now) }
    {
        Ok(RecordBuilder {
            alloc,
            output: Text::copy(alloc, output.as_str())?,
            source: Text::copy(alloc, source.as_str())?,
            provides: None,
            required: RequiredNames::new(alloc),
            unit: None,
        })
    }

    /// Takes one module or import line: `toks` are the tokens after its keyword, and `exported` says whether `export`
    /// stands before it. A refused line changes nothing, and neither does want of memory.
    #[tactic(auto, unfolding(scan_model::specs::ModuleLines::take))]
    pub fn take(
        &mut self,
        exported: bool,
        keyword: Keyword,
        toks: &[Tok],
    ) -> Result<Result<(), ModuleFault>, NoMemory>
        requires { HaveUtf8Names toks.now }
        ensures { Takes (line.take self.old exported keyword toks.now) self.old self.new result }
    {
        if is_header_import(keyword, toks) {
            return Ok(Err(ModuleFault::HeaderUnit));
        }
        let Some(words) = statement(toks) else {
            return Ok(Err(ModuleFault::BadModuleLine));
        };
        let subject = read_subject(self.alloc, words)?;
        match keyword {
            Keyword::Module => self.take_module(exported, subject),
            Keyword::Import => self.take_import(subject),
        }
    }

    /// The record of the lines that were taken.
    pub fn end(self) -> Record
        ensures { result ≡ self.so_far }
    {
        let RecordBuilder {
            output,
            source,
            provides,
            required,
            ..
        } = self;
        Record {
            output,
            source,
            provides,
            required: required.into_items(),
        }
    }

    fn has_module(&self) -> bool
        ensures { result ≡ is_some self.now.unit }
    {
        self.unit.is_some()
    }

    fn take_module(
        &mut self,
        exported: bool,
        subject: Option<Subject>,
    ) -> Result<Result<(), ModuleFault>, NoMemory>
        ensures { Takes (line.take_module exported self.old (option_map subject_of subject)) self.old self.new result }
    {
        match subject {
            Some(Subject::Name(name)) => self.take_name(exported, name),
            Some(Subject::NameAndPartition(name, part)) => self.take_partition(
                exported, name, part,
            ),
            Some(Subject::Empty | Subject::Private) if !exported => Ok(Ok(())),
            _ => Ok(Err(ModuleFault::BadModuleLine)),
        }
    }

    /// `module NAME;`, which the unit's interface provides and its other units require.
    fn take_name(&mut self, exported: bool, name: Text) -> Result<Result<(), ModuleFault>, NoMemory>
        ensures { Takes (line.take_module exported self.old (Some (line.Name name))) self.old self.new result }
    {
        if self.has_module() {
            return Ok(Err(ModuleFault::SecondModule));
        }
        let unit = Text::copy(self.alloc, name.as_str())?;
        if exported {
            self.provides = Some(Provided {
                name,
                interface: true,
            });
        } else {
            self.required.add(name)?;
        }
        self.unit = Some(unit);
        Ok(Ok(()))
    }

    /// `module NAME:PART;`
    fn take_partition(
        &mut self,
        exported: bool,
        name: Text,
        part: Text,
    ) -> Result<Result<(), ModuleFault>, NoMemory>
        ensures { Takes (line.take_module exported self.old (Some (line.NameAndPartition name part))) self.old self.new result }
    {
        if self.has_module() {
            return Ok(Err(ModuleFault::SecondModule));
        }
        let whole = with_part(self.alloc, &name, &part)?;
        self.provides = Some(Provided {
            name: whole,
            interface: exported,
        });
        self.unit = Some(name);
        Ok(Ok(()))
    }

    fn take_import(&mut self, subject: Option<Subject>) -> Result<Result<(), ModuleFault>, NoMemory>
        ensures { Takes (line.take_import self.old (option_map subject_of subject)) self.old self.new result }
    {
        match subject {
            Some(Subject::Name(name)) => {
                self.required.add(name)?;
                Ok(Ok(()))
            }
            Some(Subject::Partition(part)) => self.import_partition(&part),
            Some(Subject::Private) => {
                let part = Text::copy(self.alloc, "private")?;
                self.import_partition(&part)
            }
            _ => Ok(Err(ModuleFault::BadModuleLine)),
        }
    }

    /// `import :PART;`, a partition of the unit's own module.
    fn import_partition(&mut self, part: &Text) -> Result<Result<(), ModuleFault>, NoMemory>
        ensures { Takes (line.partition_import part.now self.old self.old.unit) self.old self.new result }
    {
        let Some(name) = &self.unit else {
            return Ok(Err(ModuleFault::PartitionOutsideModule));
        };
        let whole = with_part(self.alloc, name, part)?;
        self.required.add(whole)?;
        Ok(Ok(()))
    }
}

fn is_header_import(keyword: Keyword, toks: &[Tok]) -> bool
    ensures { result ≡ line.is_header_import keyword toks.now }
{
    match keyword {
        Keyword::Module => false,
        Keyword::Import => !toks.is_empty() && names_header(&toks[0]),
    }
}
