//! What is printed of a fault: its name alone.
use pv_folder::HostFault;
use pv_image::ImageFault;
use pv_tree::BuildFault;
use pv_words::WordsFault;
use std::test::Fail;

const OF_IMAGES: &[(ImageFault, &str)] = &[
    (ImageFault::TooLong, "TooLong"),
    (ImageFault::BadHeader(1), "BadHeader"),
    (ImageFault::BadLine(2), "BadLine"),
    (ImageFault::OutOfOrder(7), "OutOfOrder"),
    (ImageFault::NoParent(3), "NoParent"),
    (ImageFault::Truncated(4), "Truncated"),
    (ImageFault::Memory, "Memory"),
];

const OF_BUILDING: &[(BuildFault, &str)] = &[
    (BuildFault::OutOfOrder, "OutOfOrder"),
    (BuildFault::NoParent, "NoParent"),
    (BuildFault::Memory, "Memory"),
];

const OF_HOSTS: &[(HostFault, &str)] = &[
    (HostFault::Failed, "Failed"),
    (HostFault::Memory, "Memory"),
];

const OF_WORDS: &[(WordsFault, &str)] = &[
    (WordsFault::Usage, "Usage"),
    (WordsFault::Memory, "Memory"),
];

#[test]
fn names_of_image_faults(rt: HostRuntime) -> Result<(), Fail> {
    for (fault, name) in OF_IMAGES {
        let text = fault.to_string(rt.alloc())?;
        assert!(rt; text.as_str() == *name);
    }
    Ok(())
}

#[test]
fn names_of_building_faults(rt: HostRuntime) -> Result<(), Fail> {
    for (fault, name) in OF_BUILDING {
        let text = fault.to_string(rt.alloc())?;
        assert!(rt; text.as_str() == *name);
    }
    Ok(())
}

#[test]
fn names_of_host_faults(rt: HostRuntime) -> Result<(), Fail> {
    for (fault, name) in OF_HOSTS {
        let text = fault.to_string(rt.alloc())?;
        assert!(rt; text.as_str() == *name);
    }
    Ok(())
}

#[test]
fn names_of_faults_of_words(rt: HostRuntime) -> Result<(), Fail> {
    for (fault, name) in OF_WORDS {
        let text = fault.to_string(rt.alloc())?;
        assert!(rt; text.as_str() == *name);
    }
    Ok(())
}
