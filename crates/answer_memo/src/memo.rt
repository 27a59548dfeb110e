ghost use Rattle.std.specs.Prelude.{◌≡◌, ℕ, List, None, Some, IfSome};
ghost use Rattle.reducer.specs.Answers.{content_of};
ghost use Rattle.answer_memo.specs.Memo.{known_to, IsKnownFurther};

use reducer::Answer;
use scan_model::{NoMemory, PathText};
use std::alloc::Global;
use std::collections::HashMap;
use std::marker::Model;

/// Answers by path, which contracts see as the list of the paths with what was answered for each. It only grows.
#[derive(Drop)]
pub struct Memo {
    alloc: Global,
    answers: HashMap<Vec<u8>, Answer>,
}

impl Model for Memo {
    ghost use Rattle.std.specs.Prelude.{List, ℕ};
    ghost use Rattle.scan_model.specs.declared.token.Line.{Line};
    ghost use Rattle.scan_model.specs.Files.{Content};
    ghost use Rattle.answer_memo.specs.Memo.{entries};

    ghost Value = { List (List ℕ × Content (List Line)) };

    ghost view = { λ m. entries m.answers.entries };
}

impl Memo {
    /// No answer. It takes no memory.
    pub fn new(alloc: Global) -> Memo
        ensures { (path : List ℕ) → known_to result path ≡ None }
    {
        Memo {
            alloc,
            answers: HashMap::new(alloc),
        }
    }

    /// What the path was answered with, for one owner more. None also where there is no memory for that.
    pub fn get(&self, path: &PathText) -> Option<Answer>
        ensures { IfSome result (λ answer. known_to self.now path.now ≡ Some (content_of answer)) }
    {
        match self.answers.get(path.as_slice()) {
            Some(answer) => answer.share().ok(),
            None => None,
        }
    }

    /// Keeps an answer, where there is memory for it; the path has this one then. What is kept of other paths stays.
    pub fn add(&mut self, path: &PathText, answer: &Answer)
        ensures { IsKnownFurther self.old path.now (content_of answer.now) self.new }
    {
        let Ok(shared) = answer.share() else {
            return;
        };
        let Ok(key) = Vec::from_slice(self.alloc, path.as_slice()) else {
            return;
        };
        let _ = self.answers.insert(key, shared);
    }
}
