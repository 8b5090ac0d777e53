// Every NAME there is: which kind or family it names, and which operation of it.
use numbered::{Group, Name, Operation};
use words::places;

// What the word is the name of, if it is one. Operations of several groups may share a name.
pub fn read(word: &[u8]) -> Option<Name> {
    let dot = places::first_from(word, 0, b'.');
    let group = group(word.get(..dot)?)?;
    operation(group, word.get(dot..)?.get(1..)?)
}

fn group(name: &[u8]) -> Option<Group> {
    for group in Group::ALL {
        if group.name().as_bytes() == name {
            return Some(group);
        }
    }
    None
}

fn operation(group: Group, word: &[u8]) -> Option<Name> {
    for operation in Operation::ALL {
        let name = Name { group, operation };
        if operation.name().as_bytes() == word && name.is_there() {
            return Some(name);
        }
    }
    None
}
