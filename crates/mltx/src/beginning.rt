//! What a server begins with.

use crate::data_folder::DataFolder;
use crate::end_signals::EndSignals;
use crate::failure::{Failure, Subject};
use crate::input::Input;
use crate::loading::{LoadEnd, open_base};
use crate::saving::SaveFile;
use mlt_cli::Serve;
use mlt_script_load::{BaseReader, Form};
use std::io;

/// What a server begins with, and where its data are saved.
#[derive(Drop)]
pub(crate) struct Beginning {
    /// The base, if it is not the empty one.
    pub(crate) base: Option<BaseReader<Input>>,
    /// The file for the base at the end, if there is one.
    pub(crate) save: Option<SaveFile>,
    /// The folder of all data, if there is one.
    pub(crate) data: Option<DataFolder>,
    /// What there is to be told of the data.
    pub(crate) told: String,
}

impl Beginning {
    /// As these options say. In a folder of all data the newest is made the base before.
    ///
    /// # Errors
    /// Where a file can't be had, or a signal asks for the end.
    pub(crate) fn open(
        rt: &HostRuntime,
        serve: &Serve,
        signals: &mut EndSignals,
    ) -> Result<Beginning, LoadEnd> {
        match &serve.operating.data {
            Some(folder) => Beginning::of_folder(rt, folder.as_str(), signals),
            None => Beginning::of_files(rt, serve, signals),
        }
    }

    fn of_folder(
        rt: &HostRuntime,
        folder: &str,
        signals: &mut EndSignals,
    ) -> Result<Beginning, LoadEnd> {
        let data = DataFolder::open(rt, folder).map_err(|error| of_call(Subject::Data, error))?;
        let base = data.base.as_str();
        let mut save = SaveFile::open(rt, base, true).map_err(|error| of_call(
            Subject::Data,
            error,
        ))?;
        let told = data.recover(&mut save, signals)?;
        let base = data
            .found_base()
            .map_err(|error| of_call(Subject::Data, error))?;
        Ok(Beginning {
            base: open_base(rt, base, Form::Session, Some(signals))?,
            save: Some(save),
            data: Some(data),
            told,
        })
    }

    fn of_files(
        rt: &HostRuntime,
        serve: &Serve,
        signals: &mut EndSignals,
    ) -> Result<Beginning, LoadEnd> {
        let load = serve.run.load.as_ref().map(|file| file.as_str());
        let base = open_base(rt, load, Form::Session, Some(signals))?;
        let save = match &serve.operating.save {
            Some(file) => {
                let opened = SaveFile::open(rt, file.as_str(), false);
                Some(opened.map_err(|error| of_call(Subject::Save, error))?)
            }
            None => None,
        };
        Ok(Beginning {
            base,
            save,
            data: None,
            told: String::new(rt.alloc()),
        })
    }
}

fn of_call(subject: Subject, error: io::Error) -> LoadEnd {
    LoadEnd::Failed(Failure::of_call(subject, error))
}
