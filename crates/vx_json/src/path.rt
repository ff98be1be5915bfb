ghost use Rattle.std.specs.Prelude.{◌≡◌, [], IfOk};
ghost use Rattle.vx_json.specs.Paths.{member_path, element_path};

use std::alloc::Global;
use std::marker::Model;
use vx_base::OutOfMemory;

/// Where in a JSON value something stands: a text such as `contests[2].candidates[0].id`.
#[derive(Debug, Drop)]
pub struct Path {
    text: String,
}

impl Model for Path {
    ghost use Rattle.std.specs.Prelude.{List, ℕ, string_bytes};

    ghost Value = { List ℕ };

    ghost view = { λ path. string_bytes path.text };
}

impl Path {
    /// The empty path of the value itself; takes no memory.
    pub fn root(alloc: Global) -> Self
        ensures { result ≡ [] }
    {
        Path {
            text: String::new(alloc),
        }
    }

    /// The path's text.
    pub fn as_str(&self) -> &str
        ensures { result.now ≡ self.now }
    {
        self.text.as_str()
    }

    /// An equal path.
    pub fn copy(&self, alloc: Global) -> Result<Path, OutOfMemory>
        ensures { IfOk result (λ path. path ≡ self.now) }
    {
        Ok(Path {
            text: String::from_str(alloc, self.text.as_str())?,
        })
    }

    /// The path of a member of the object that stands here.
    pub fn member(&self, alloc: Global, name: &str) -> Result<Path, OutOfMemory>
        ensures { IfOk result (λ path. path ≡ member_path self.now name.now) }
    {
        let mut text = String::from_str(alloc, self.text.as_str())?;
        if !text.is_empty() {
            text.push_str(".")?;
        }
        text.push_str(name)?;
        Ok(Path { text })
    }

    /// The path of an element, counted from 0, of the list that stands here.
    pub fn element(&self, alloc: Global, index: usize) -> Result<Path, OutOfMemory>
        ensures { IfOk result (λ path. path ≡ element_path self.now index) }
    {
        let list = self.text.as_str();
        Ok(Path {
            text: format!(in alloc; "{list}[{index}]")?,
        })
    }
}
