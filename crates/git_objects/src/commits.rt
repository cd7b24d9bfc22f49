// Commits.
ghost use Rattle.std.specs.Prelude.{◌≡◌, ◌++◌, IsTrue, OnOk, MatchResult};
ghost use Rattle.std.specs.List.{All};
ghost use Rattle.git_objects.specs.Headers.{is_extra};
ghost use Rattle.git_objects.specs.Commits.{people_text, links_text, parent_line};
ghost use Rattle.git_objects.specs.Ids.{IsId};
ghost use Rattle.git_objects.specs.Persons.{person_text, IsPersonStored};
ghost use Rattle.git_objects.specs.declared.errors.ObjErr.TheVariants.{NoMemory};

use crate::errors::ObjErr;
use crate::ids::Id;
use crate::people::Person;
use places::Bytes;
use std::alloc::{AllocError, Global};

/// `extra` has the further lines of the head, each with its newline.
#[derive(Debug, Drop)]
pub struct Commit {
    pub tree: Id,
    pub parents: Vec<Id>,
    pub author: Person,
    pub committer: Person,
    pub extra: Bytes,
    pub message: Bytes,
    pub ghost valid: { IsTrue (is_extra extra) },
}

impl Commit {
    ghost use Rattle.git_objects.specs.CommitTexts.{fields_of, IsCommitText};

    #[tactic(auto, unfolding(crate::specs::Commits::people_text))]
    fn append_people(&self, body: &mut Vec<u8>) -> Result<(), AllocError>
        ensures text { OnOk result (body.new.items ≡ body.old.items
            ++ people_text (person_text self.now.author) (person_text self.now.committer)) }
        ensures author { OnOk result (IsPersonStored self.now.author) }
        ensures committer { OnOk result (IsPersonStored self.now.committer) }
    {
        body.extend_from_slice(b"author ")?;
        self.author.append_to(body)?;
        body.extend_from_slice(b"\ncommitter ")?;
        self.committer.append_to(body)?;
        body.extend_from_slice(b"\n")?;
        Ok(())
    }

    #[tactic(auto, unfolding(crate::specs::Commits::links_text))]
    fn append_links(&self, body: &mut Vec<u8>) -> Result<(), AllocError>
        ensures text { OnOk result (body.new.items ≡ body.old.items
            ++ links_text self.now.tree.0 self.now.parents.items) }
        ensures tree { OnOk result (IsId self.now.tree.0) }
        ensures parents { OnOk result (All (λ parent. IsId parent.0) self.now.parents.items) }
    {
        body.extend_from_slice(b"tree ")?;
        self.tree.append_to(body)?;
        body.extend_from_slice(b"\n")?;
        for parent in &self.parents {
            append_parent(body, parent)?;
        }
        Ok(())
    }

    /// The body of the commit.
    pub fn encode(&self, alloc: Global) -> Result<Vec<u8>, ObjErr>
        ensures { MatchResult result (λ body. IsCommitText body.items (fields_of self.now))
            (λ e. e ≡ NoMemory) }
    {
        let mut body = Vec::new(alloc);
        self.append_links(&mut body)?;
        self.append_people(&mut body)?;
        body.extend_from_slice(self.extra.as_slice())?;
        body.extend_from_slice(b"\n")?;
        body.extend_from_slice(self.message.as_slice())?;
        Ok(body)
    }
}

#[tactic(auto, unfolding(crate::specs::Commits::parent_line))]
fn append_parent(body: &mut Vec<u8>, parent: &Id) -> Result<(), AllocError>
    ensures text { OnOk result (body.new.items ≡ body.old.items ++ parent_line parent.now) }
    ensures stored { OnOk result (IsId parent.now.0) }
{
    body.extend_from_slice(b"parent ")?;
    parent.append_to(body)?;
    body.extend_from_slice(b"\n")?;
    Ok(())
}
