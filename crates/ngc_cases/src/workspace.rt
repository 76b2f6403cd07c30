//! The files that a case is run with, and calls of the program on them.
use crate::compare::{first_mismatch, other_status};
use anyhow::{Context, Result};
use ng_console::ngc;
use ng_file::Hold;
use std::alloc::Global;
use std::rt::{Env, Files};
use std::{env, fs};

/// The folder of the cases, and the folder for the files of the case that is run, which is created anew for each case.
#[derive(Drop)]
pub struct Workspace {
    pub cases: String,
    own: String,
}

/// The expected result of a call of the program.
#[derive(Clone, Copy)]
pub struct Wanted<'a> {
    pub writes: &'a [u8],
    pub status: u8,
}

impl Workspace {
    /// A workspace in the system's temporary folder, with a number in its name.
    pub fn new<R: Env + AllocGlobal>(rt: &R, cases: String, number: u32) -> Result<Workspace> {
        let place = env::temp_dir(rt)?;
        let own = format!(in rt.alloc(); "{}/ngc_cases_{number}", place.display())?;
        Ok(Workspace { cases, own })
    }

    /// Creates the folder of a case.
    pub fn open<R: Files>(&self, rt: &R) -> Result<()> {
        Ok(fs::create_dir(rt, self.own.as_str())?)
    }

    /// Removes what a case left, if there is anything.
    pub fn clear<R: Files + AllocGlobal>(&self, rt: &R) -> Result<()> {
        if fs::exists(rt, self.own.as_str())? {
            fs::remove_dir_all(rt, self.own.as_str())?;
        }
        Ok(())
    }

    /// The path of a file of the case.
    pub fn path(&self, alloc: Global, name: &str) -> Result<String> {
        Ok(format!(in alloc; "{}/{name}", self.own.as_str())?)
    }

    /// Creates a file of the case.
    pub fn put<R: Files + AllocGlobal>(&self, rt: &R, name: &str, bytes: &[u8]) -> Result<()> {
        let path = self.path(rt.alloc(), name)?;
        Ok(fs::write(rt, path.as_str(), bytes)?)
    }

    /// The contents of a file of the case.
    pub fn held<R: Files + AllocGlobal>(&self, rt: &R, name: &str) -> Result<Vec<u8>> {
        let path = self.path(rt.alloc(), name)?;
        Ok(fs::read(rt, path.as_str()).context(format_args!("{name}"))?)
    }

    /// What is wrong with the program's answer to these words and this input, if anything is. In the words `@` stands
    /// for the folder of the case.
    pub fn wrong_of_call<R: Files + AllocGlobal>(
        &self,
        rt: &R,
        line: &str,
        asked: &[u8],
        wanted: Wanted<'_>,
    ) -> Result<Option<String>>
    where
        R::File: Hold,
    {
        let front = self.path(rt.alloc(), "")?;
        let line = line.replace(rt.alloc(), '@', front.as_str())?;
        let words: Vec<&str> = line.as_str().split(' ').collect(rt.alloc())?;
        let mut reader = asked;
        let mut text = Vec::new(rt.alloc());
        let status = ngc(rt, words.as_slice(), &mut reader, &mut text);
        match first_mismatch(rt.alloc(), wanted.writes, text.as_slice())? {
            Some(wrong) => Ok(Some(wrong)),
            None => other_status(rt.alloc(), wanted.status, status),
        }
    }
}
