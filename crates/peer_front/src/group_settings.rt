//! What a file sets of the groups whose values services have.

use crate::config::ConfigFile;
use crate::exit::{Exit, OUT_OF_MEMORY, refuse};
use crate::headers::fields_of;
use peer_config::Group;
use peer_origin::{GroupSettings, Origin, set_group};
use std::fs::Files;
use std::sync::Arc;

// Sets what the file says of a group, or says why it cannot be set.
fn set_own<H: AllocGlobal + Eprint + Files>(
    rt: &H,
    file: &ConfigFile<'_>,
    group: &Group,
    origins: &mut [Origin],
) -> Result<(), Exit> {
    let own = GroupSettings {
        fields: fields_of(rt, file, group)?,
        connect: group.connect_timeout(),
        value: group.timeout(),
        under_way: group.under_way(),
    };
    match Arc::new(rt.alloc(), own) {
        Ok(own) => {
            let _ = set_group(origins, group.name.as_bytes(), own);
            Ok(())
        }
        Err(_) => Err(refuse(rt, &"out of memory", OUT_OF_MEMORY)),
    }
}

/// Sets what a file says of each group, or says why it cannot be set.
pub fn set_groups<H: AllocGlobal + Eprint + Files>(
    rt: &H,
    file: Option<ConfigFile<'_>>,
    origins: &mut [Origin],
) -> Result<(), Exit> {
    let Some(file) = file else {
        return Ok(());
    };
    for group in file.config.groups.iter() {
        set_own(rt, &file, group, origins)?;
    }
    Ok(())
}
