ghost use Rattle.laws.specs.RunLaws.{TreesRead, ValuesRead, TypesRead, EntitiesRead, RequestsRead};
ghost use Rattle.laws.specs.ImageLaws.{ImagesRead};
ghost use Rattle.laws.specs.TableLaws.{TablesRead};

// A run is read exactly if it is that of a tree within the limits, and then as that tree.
pub fn trees_read()
    ensures { TreesRead }
{}

// A value is read from its run, and what is read has that run.
pub fn values_read()
    ensures { ValuesRead }
{}

// A type is read from its run, and what is read has that run.
pub fn types_read()
    ensures { TypesRead }
{}

// An entity is read from its run, and what is read has that run.
pub fn entities_read()
    ensures { EntitiesRead }
{}

// A request is read from its run, and what is read has that run.
pub fn requests_read()
    ensures { RequestsRead }
{}

// A table of nodes is made of exactly the runs of a list that fits, and then means that list.
pub fn tables_read()
    ensures { TablesRead }
{}

// An image is read from the bytes written of a list that fits, and what is read has those bytes.
pub fn images_read()
    ensures { ImagesRead }
{}
